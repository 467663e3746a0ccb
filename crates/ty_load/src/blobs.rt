//! What blobs say, whatever their length.
ghost use Rattle.md_sigs.specs.Signatures.{IsTold, signature, type_blob};

use md_sigs::{Sig, SigFault, read_sig, read_type};
use std::alloc::Global;
use ty_terms::Ty;

/// The signature that a blob of a module is (ECMA-335 II.23.2). For one of 4 GiB or more memory is wanting.
pub fn signature_of(alloc: Global, blob: &[u8], module: u32) -> Result<Sig, SigFault>
    ensures { IsTold result (signature «module» blob.now) }
{
    if blob.len() < 0x1_0000_0000 {
        read_sig(alloc, blob, module)
    } else {
        Err(SigFault::Memory)
    }
}

/// The type that a blob of a module is, as in a row of TypeSpec (ECMA-335 II.23.2.14). For one of 4 GiB or more memory
/// is wanting.
pub fn type_of_blob(alloc: Global, blob: &[u8], module: u32) -> Result<Ty, SigFault>
    ensures { IsTold result (type_blob «module» blob.now) }
{
    if blob.len() < 0x1_0000_0000 {
        read_type(alloc, blob, module)
    } else {
        Err(SigFault::Memory)
    }
}
