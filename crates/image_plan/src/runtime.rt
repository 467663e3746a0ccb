//! The routines of the runtime, one behind another.
ghost use Rattle.std.specs.Prelude.{◌≡◌, ◌++◌, ◌∷◌, [], ◌+◌, ◌<◌, ◌^◌, length, map, IfOk, OnOk};
ghost use Rattle.rv_isa.specs.Instructions.{word_of};
ghost use Rattle.rt_code.specs.Code.{code_of};
ghost use Rattle.image_plan.specs.Places.{code_at, routine_begins, routine_size, routines, routines_at};
ghost use Rattle.image_plan.specs.Written.{bytes_of, routine_bytes};

use crate::text::put_word;
use elf_file::TEXT_AT;
use num_core::{Bytes, List, Memory};
use rt_code::{Routine, routine};
use rv_isa::{Ins, encode};
use std::alloc::Global;

/// The address of the first routine, in front of which stand three words of 8 bytes.
pub(crate) const ROUTINES_AT: u64 = TEXT_AT + 24;

/// Code of the runtime: its bytes, where each routine begins, and where the next one would.
#[derive(Drop)]
pub(crate) struct Runtime {
    pub(crate) bytes: Bytes,
    pub(crate) begins: List<u64>,
    pub(crate) end: u64,
}

/// Adds the words of instructions.
fn put_code(bytes: &mut Bytes, code: &[Ins]) -> Result<(), Memory>
    ensures { OnOk result (bytes.new ≡ bytes.old ++ bytes_of (map word_of code.now)) }
{
    for ins in code {
        put_word(bytes, encode(ins))?;
    }
    Ok(())
}

impl Runtime {
    /// Adds a routine.
    fn add(&mut self, alloc: Global, which: Routine) -> Result<(), Memory>
        requires { self.old.end + routine_size which < 2 ^ 32 }
        ensures bytes { OnOk result (self.new.bytes ≡ self.old.bytes ++ bytes_of (map word_of (code_of which))) }
        ensures begins { OnOk result (self.new.begins ≡ self.old.begins ++ self.old.end ∷ []) }
        ensures end { OnOk result (self.new.end ≡ self.old.end + routine_size which) }
    {
        self.begins.extend_from_slice(&[self.end])?;
        let code = routine(alloc, which)?;
        put_code(&mut self.bytes, code.as_slice())?;
        self.end += 4 * code.len() as u64;
        Ok(())
    }
}

/// All routines, in the order of their numbers.
pub(crate) fn all_routines(alloc: Global) -> Result<Runtime, Memory>
    ensures bytes { IfOk result (λ runtime. runtime.bytes ≡ routine_bytes routines) }
    ensures begins { IfOk result (λ runtime. runtime.begins ≡ routine_begins) }
    ensures end { IfOk result (λ runtime. runtime.end ≡ code_at) }
{
    let mut runtime = Runtime {
        bytes: Bytes::new(alloc),
        begins: List::new(alloc),
        end: ROUTINES_AT,
    };
    runtime.add(alloc, Routine::Start)?;
    runtime.add(alloc, Routine::End)?;
    runtime.add(alloc, Routine::WriteByte)?;
    runtime.add(alloc, Routine::ReadByte)?;
    runtime.add(alloc, Routine::StackBound)?;
    runtime.add(alloc, Routine::HeapBound)?;
    runtime.add(alloc, Routine::Unhandled)?;
    Ok(runtime)
}
