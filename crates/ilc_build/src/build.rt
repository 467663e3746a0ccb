ghost use Rattle.std.specs.Prelude.{◌≡◌, ◌<◌, ◌^◌, List, length, IfOk, IfErr};
ghost use Rattle.il_code.specs.declared.body.Body.{Body};
ghost use Rattle.ilc_build.specs.Bare.{ReadsBare};
ghost use Rattle.ilc_build.specs.Implements.{Builds};
ghost use Rattle.ilc_build.specs.Refusals.{NotBare};
ghost use Rattle.ilc_build.specs.declared.depths.Known.{Known};

use crate::bare::read_bare;
use crate::compile::compile;
use num_core::Bytes;
use std::alloc::Global;
use thiserror::Error;

/// Why nothing is built.
#[derive(Clone, Copy, Debug, PartialEq, Eq, Error)]
pub enum BuildFault {
    /// The bytes are no tiny header and its code: the first offset at which a byte is wrong, missing or left over.
    #[error("9 BadHeader {0}")]
    BadHeader(u32),
    /// At this offset of the code no instruction stands whole.
    #[error("10 BadOpcode {0}")]
    BadOpcode(u32),
    /// The instruction at this offset has a target at which none stands, or control comes to it and runs past the end
    /// of the code; 0 of empty code.
    #[error("11 BadTarget {0}")]
    BadTarget(u32),
    /// Control comes to an instruction that isn't compiled, at this offset of the code.
    #[error("24 OpcodeOutside {0}")]
    OpcodeOutside(u32),
    /// The code isn't verified: the least offset that fails.
    #[error("20 Unverified {0}")]
    Unverified(u32),
    #[error("memory")]
    Memory,
}

/// Builds a bare body: one tiny header (ECMA-335 II.25.4.2) and its code. Gives the bytes of an executable file that
/// does what the body does.
///
/// The faults are looked for in the order of the variants: `BadHeader`, `BadOpcode`, `BadTarget` of the branches and
/// then of control past the end, `OpcodeOutside`, `Unverified`. `Memory` may come at any time.
pub fn build_body(alloc: Global, bytes: &[u8]) -> Result<Bytes, BuildFault>
    requires { length bytes.now < 2 ^ 32 }
    ensures built { IfOk result (Builds bytes.now) }
    ensures refused { IfErr result (NotBare bytes.now) }
    // The bytes of a bare body are built, or memory is wanting.
    ensures complete { (body : Body) (table : List Known) → ReadsBare bytes.now body table →
        IfErr result (λ fault. fault ≡ BuildFault.Memory) }
{
    build(alloc, bytes)
}

/// The executable file of a bare body, or why there is none.
fn build(alloc: Global, bytes: &[u8]) -> Result<Bytes, BuildFault>
    requires { length bytes.now < 2 ^ 32 }
    ensures built { IfOk result (Builds bytes.now) }
    ensures refused { IfErr result (NotBare bytes.now) }
{
    match read_bare(alloc, bytes) {
        Ok(bare) => compile(alloc, &bare).map_err(|_| BuildFault::Memory),
        Err(fault) => Err(fault),
    }
}
