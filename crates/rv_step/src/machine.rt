ghost use Rattle.std.specs.Prelude.{◌≡◌, ◌<◌, ℕ, All, AllPairs, OnOk, OnErr, ◌⊎◌, ◌≤◌, [], true, IfOk, IfSome, length};
ghost use Rattle.std.specs.Prelude.{option_copied, replicate, not, Some, None};
ghost use Rattle.std.specs.Bool.{OnTrue, OnFalse};
ghost use Rattle.rv_step.specs.Machine.{MachineState, fetched, register as value_of, next_pc, with_register, gives};
ghost use Rattle.rv_step.specs.Machine.{jumps, branches, bytes_at as are_bytes_at, with_bytes_at};
ghost use Rattle.rv_step.specs.Machine.{address as address_of};
ghost use Rattle.rv_step.specs.Steps.{Does, FilledSegments};
ghost use Rattle.ilc_io.specs.Count.{next_count};
ghost use Rattle.rv_step.specs.Segments.{AreDisjoint, DoesNotWrap};

use crate::fill::fill;
use crate::segment::{Access, Segment, bytes_at, write_bytes};
use crate::trap::{Cause, Trap};
use crate::value;
use byteorder::{ByteOrder, LittleEndian};
use ilc_io::{Failed, Source};
use num_core::{List, Memory};
use rv_isa::{BranchOffset, Immediate, Register};
use std::alloc::Global;
use std::marker::Model;

/// A machine: the address of the next instruction, the registers x0 to x31, and the memory.
#[derive(Debug, Drop)]
pub struct Machine {
    pc: u64,
    registers: [u64; 32],
    segments: Vec<Segment>,
}

impl Model for Machine {
    ghost use Rattle.rv_step.specs.Machine.{MachineState};

    ghost Value = { MachineState };

    ghost view = { λ m. record {
      pc = m.pc;
      registers = m.registers;
      segments = m.segments.items;
    } };
}

impl Machine {
    /// A machine at the start, with all registers 0.
    pub fn new(_alloc: Global, segments: List<Segment>, pc: u64) -> Result<Machine, Memory>
        requires disjoint { AllPairs AreDisjoint segments }
        requires within { All DoesNotWrap segments }
        ensures { IfOk result (λ machine. machine
            ≡ record { pc = pc; registers = replicate 32 0; segments = segments }) }
    {
        Ok(Machine {
            pc,
            registers: [0; 32],
            segments: segments.into_vec(),
        })
    }

    /// The word at the pc, if it is a multiple of 4 in a segment that may be executed.
    #[inline]
    pub(crate) fn fetch(&self) -> Option<u32>
        ensures { result ≡ fetched self.now }
    {
        if self.pc % 4 != 0 {
            return None;
        }
        let bytes = bytes_at(self.segments.as_slice(), Access::Execute, self.pc, 4)?;
        Some(LittleEndian::read_u32(bytes))
    }

    /// The bytes at so many addresses, if they lie in one segment that may be read.
    #[inline]
    pub(crate) fn read(&self, address: u64, count: u64) -> Option<&[u8]>
        ensures bytes { option_copied result ≡ are_bytes_at (λ s. s.read) address count self.now.segments }
        ensures length { IfSome result (λ bytes. length bytes.now ≡ count) }
    {
        bytes_at(self.segments.as_slice(), Access::Read, address, count)
    }

    /// Writes bytes from an address on, if they lie in one segment that may be written.
    #[inline]
    pub(crate) fn write(&mut self, address: u64, bytes: &[u8]) -> bool
        ensures written { OnTrue result
            (with_bytes_at (λ s. s.write) address bytes.now self.old.segments ≡ Some self.new.segments) }
        ensures refused { OnFalse result (with_bytes_at (λ s. s.write) address bytes.now self.old.segments ≡ None) }
        ensures same { OnFalse result (self.new ≡ self.old) }
        ensures pc { self.new.pc ≡ self.old.pc }
        ensures registers { self.new.registers ≡ self.old.registers }
    {
        write_bytes(self.segments.as_mut_slice(), address, bytes)
    }

    /// Reads what there is into so many bytes from an address on, if they lie in one segment that may
    /// be written, and gives how many were read.
    pub(crate) fn fill<I: Source>(
        &mut self,
        address: u64,
        count: u64,
        input: &mut I,
        at_end: &mut bool,
    ) -> Result<Option<u64>, Failed>
        requires { at_end.old ≡ true → IfSome (I.rest input.old) (λ rest. rest ≡ []) }
        ensures filled { IfOk result (λ found. IfSome found
            (λ got. (got ≤ count)
            × FilledSegments got address count self.old.segments self.new.segments at_end.old at_end.new
            (I.rest input.old) (I.rest input.new))) }
        ensures whole { IfOk result (λ found. IfSome found (λ got. (got ≡ count) ⊎ (at_end.new ≡ true))) }
        ensures nowhere { result ≡ Ok None → are_bytes_at (λ s. s.write) address count self.old.segments ≡ None }
        ensures same { result ≡ Ok None → (self.new ≡ self.old) × (at_end.new ≡ at_end.old)
            × (I.rest input.new ≡ I.rest input.old) }
        ensures broken_off { OnErr result
            ((got : ℕ) × (got < count)
            × FilledSegments got address count self.old.segments self.new.segments at_end.old at_end.new
            (I.rest input.old) (I.rest input.new)) }
        ensures asked { OnErr result (at_end.old ≡ true → ⊥) }
        ensures pc { self.new.pc ≡ self.old.pc }
        ensures registers { self.new.registers ≡ self.old.registers }
        ensures counted { OnErr result (I.faults input.new ≡ next_count (I.faults input.old)) }
        ensures not_counted { OnOk result (I.faults input.new ≡ I.faults input.old) }
    {
        fill(self.segments.as_mut_slice(), address, count, input, at_end)
    }

    /// Goes on to the next instruction.
    #[inline]
    pub(crate) fn go_on(&mut self)
        ensures { self.new ≡ record self.old { pc = next_pc self.old } }
    {
        self.pc = self.pc.wrapping_add(4);
    }

    /// The trap of the instruction at the pc.
    pub(crate) fn trap(&self, cause: Cause) -> Trap
        ensures { result ≡ record { pc = self.now.pc; cause = cause } }
    {
        Trap { pc: self.pc, cause }
    }

    /// What a register holds.
    #[inline]
    pub(crate) fn get(&self, register: Register) -> u64
        ensures { result ≡ value_of self.now register }
    {
        self.registers[register.index()]
    }

    /// The address of the instruction to be done.
    #[inline]
    pub(crate) fn pc(&self) -> u64
        ensures { result ≡ self.now.pc }
    {
        self.pc
    }

    /// Where a load or store goes.
    #[inline]
    pub(crate) fn address(&self, base: Register, offset: Immediate) -> u64
        ensures { result ≡ address_of self.now base offset }
    {
        value::add_signed(self.get(base), offset.value() as i64)
    }

    /// Goes on at a target, and puts the address of the next instruction in a register, but for x0.
    #[inline]
    pub(crate) fn jump(&mut self, register: Register, target: u64) -> Result<(), Cause>
        ensures { Does (jumps self.old register target) result self.old self.new }
    {
        self.put(register, self.pc.wrapping_add(4));
        self.pc = target;
        Ok(())
    }

    /// Goes on at a distance if the test holds, and else at the next instruction.
    #[inline]
    pub(crate) fn branch_if(&mut self, test: bool, distance: BranchOffset) -> Result<(), Cause>
        ensures { Does (branches self.old test distance) result self.old self.new }
    {
        self.pc = if test {
            value::add_signed(self.pc, distance.value() as i64)
        } else {
            self.pc.wrapping_add(4)
        };
        Ok(())
    }

    /// Goes on at a distance unless the test holds, and else at the next instruction.
    #[inline]
    pub(crate) fn branch_unless(&mut self, test: bool, distance: BranchOffset) -> Result<(), Cause>
        ensures { Does (branches self.old (not test) distance) result self.old self.new }
    {
        self.branch_if(!test, distance)
    }

    /// Puts a value in a register, but for x0.
    #[inline]
    pub(crate) fn put(&mut self, register: Register, value: u64)
        ensures { self.new ≡ record self.old { registers = with_register self.old.registers register value } }
    {
        let index = register.index();
        if index != 0 {
            self.registers[index] = value;
        }
    }

    /// Puts a value in a register, but for x0, and goes on to the next instruction.
    #[inline]
    pub(crate) fn give(&mut self, register: Register, value: u64) -> Result<(), Cause>
        ensures { Does (gives self.old register value) result self.old self.new }
    {
        self.put(register, value);
        self.go_on();
        Ok(())
    }
}
