ghost use Rattle.std.specs.Prelude.{◌≡◌, ◌∷◌, [], ◌-◌, ◌^◌, ◌<◌, length, IfOk, IfErr, MatchResult, Some};
ghost use Rattle.md_sigs.specs.Grammar.{AreSig, AreSpelled, AreType, AreTypes, IsSig, IsType, Says, places_behind};
ghost use Rattle.md_sigs.specs.Reading.{Gives, IsStopped, fault_at};
ghost use Rattle.md_sigs.specs.Refusal.{IsRefused};
ghost use Rattle.md_sigs.specs.Signatures.{IsTold, says, signature, type_blob, types_in};

use crate::element::{Head, Stop};
use crate::elements::read_elements;
use crate::fault::SigFault;
use crate::front::read_head;
use crate::sig::{MethodSig, Sig};
use crate::types::{first, list_of, make_types, only};
use crate::waiting::wait_behind;
use num_core::Memory;
use std::alloc::Global;
use std::collections::VecDeque;
use ty_terms::Ty;

/// The signature that a blob is, whole (ECMA-335 II.23.2): of a field, a method, local variables or the arguments of a
/// generic method. Modifiers are left out. Types by index get `module` and the number of the index as it stands.
///
/// `BadSig` tells the offset of the first byte with which no signature goes on, or the blob's length where it ends too
/// early; `SigOutside` comes in its place where that byte is an element type outside the profile.
pub fn read_sig(alloc: Global, blob: &[u8], module: u32) -> Result<Sig, SigFault>
    requires { length blob.now < 2 ^ 32 }
    ensures read { IfOk result (IsSig «module» blob.now) }
    ensures refused { IfErr result (IsRefused (AreSig «module») blob.now) }
    ensures exact { IsTold result (signature «module» blob.now) }
{
    let (head, rest) = match read_head(blob) {
        Ok(read) => read,
        Err(stop) => return Err(fault(blob, stop)),
    };
    match read_types(alloc, rest, module, head) {
        Ok(Ok(types)) => match say(alloc, head, types) {
            Ok(sig) => Ok(sig),
            Err(_) => Err(SigFault::Memory),
        },
        Ok(Err(stop)) => Err(fault(blob, stop)),
        Err(_) => Err(SigFault::Memory),
    }
}

/// The type that a blob is, whole, as in a row of TypeSpec (II.23.2.14). The faults are those of `read_sig`.
pub fn read_type(alloc: Global, blob: &[u8], module: u32) -> Result<Ty, SigFault>
    requires { length blob.now < 2 ^ 32 }
    ensures read { IfOk result (IsType «module» blob.now) }
    ensures refused { IfErr result (IsRefused (AreType «module») blob.now) }
    ensures exact { IsTold result (type_blob «module» blob.now) }
{
    match read_types(alloc, blob, module, Head::Field) {
        Ok(Ok(types)) => Ok(only(types)),
        Ok(Err(stop)) => Err(fault(blob, stop)),
        Err(_) => Err(SigFault::Memory),
    }
}

/// The types behind the beginning of a signature, one for each place, or where they stop.
fn read_types(
    alloc: Global,
    bytes: &[u8],
    module: u32,
    head: Head,
) -> Result<Result<VecDeque<Ty>, Stop>, Memory>
    ensures read { IfOk result (λ read. MatchResult read
        (λ types. AreTypes «module» (places_behind head) bytes.now types.items)
        (IsStopped (AreSpelled «module» (places_behind head)) bytes.now)) }
    ensures counted { IfOk result (λ read. IfOk read (λ types. length types.items ≡ length (places_behind head))) }
    ensures exact { IfOk result (λ read. Gives (λ types. types.items) read
        (types_in «module» (places_behind head) bytes.now)) }
{
    let mut waiting = wait_behind(alloc, head)?;
    match read_elements(alloc, bytes, module, &mut waiting)? {
        Ok(elements) => Ok(Ok(make_types(alloc, elements)?)),
        Err(stop) => Ok(Err(stop)),
    }
}

/// What the beginning of a signature and its types say.
fn say(alloc: Global, head: Head, types: VecDeque<Ty>) -> Result<Sig, Memory>
    requires { length types.items ≡ length (places_behind head) }
    ensures said { IfOk result (Says head types.items) }
    ensures exact { IfOk result (λ sig. says head types.items ≡ Some sig) }
{
    match head {
        Head::Field => Ok(Sig::Field(only(types))),
        Head::Method(instance, generic, _) => {
            let mut types = types;
            let returned = first(&mut types);
            let params = list_of(alloc, types)?;
            Ok(Sig::Method(MethodSig {
                instance,
                generic,
                params,
                result: returned,
            }))
        }
        Head::Locals(_) => Ok(Sig::Locals(list_of(alloc, types)?)),
        Head::Args(_) => Ok(Sig::Args(list_of(alloc, types)?)),
    }
}

/// The fault that a stop is in these bytes.
fn fault(bytes: &[u8], stop: Stop) -> SigFault
    requires { length bytes.now < 2 ^ 32 }
    ensures { result ≡ fault_at bytes.now stop }
{
    match stop {
        Stop::Bad(left) => SigFault::BadSig(bytes.len().saturating_sub(left) as u32),
        Stop::Outside(element) => SigFault::SigOutside(element),
    }
}
