ghost use Rattle.std.specs.Prelude.{◌≡◌, ◌<◌, ◌++◌, [], ℕ, Some, None, length, slice_get, IfOk, OnOk, OnErr, IfSome};
ghost use Rattle.std.specs.Prelude.{MatchResult, if◌then◌else◌};
ghost use Rattle.byteorder.specs.Endian.{little_bytes};
ghost use Rattle.std.specs.List.{AllByRecursion};
ghost use Rattle.rv_isa.specs.Operands.{IsEven};
ghost use Rattle.rv_isa.specs.Instructions.{IsLegal};
ghost use Rattle.rv_isa.specs.Assembly.{IsJumpOrBranch, AreGiven, AreBound, appended, labelled, bound};
ghost use Rattle.rv_isa.specs.Assembly.{filled as filled_in, filled_from, missed, missed_from, with_distance};
ghost use Rattle.rv_isa.specs.Assembly.{is_in_reach, is_in_jump_reach, is_in_branch_reach, program, out_of_reach};
ghost use Rattle.rv_isa.specs.Assembly.{bytes_of};

use crate::encoding::encode;
use crate::ins::Ins;
use crate::operands::{BranchOffset, JumpOffset};
use byteorder::{ByteOrder, LittleEndian};
use num_core::{Bytes, Memory};
use std::alloc::Global;
use std::marker::Model;
use thiserror::Error;

/// An assembler: it takes instructions down in order, of which jumps and branches may go to labels,
/// and fills the distances in at the end.
#[derive(Drop)]
pub struct Asm {
    alloc: Global,
    emitted: Vec<Emitted>,
    places: Vec<Option<usize>>,
}

/// An instruction that was taken down, and the label that it goes to if it goes to one.
#[derive(Clone, Copy, Debug)]
pub struct Emitted {
    pub ins: Ins,
    pub label: Option<u32>,
}

/// Why there is no program.
#[derive(Debug, Drop, PartialEq, Eq, Error)]
pub enum AsmFault {
    /// A jump or branch can't go as far as to this label.
    #[error("label {0} is out of reach")]
    OutOfReach(u32),
    #[error("memory")]
    Memory,
}

impl Model for Asm {
    ghost use Rattle.rv_isa.specs.Assembly.{Assembly, AreGiven};

    ghost Value = { Assembly };

    ghost view = { λ asm. record { emitted = asm.emitted.items; places = asm.places.items } };

    ghost invariant = { λ asm. AreGiven asm.emitted.items asm.places.items };
}

impl Asm {
    /// An assembler with no instruction and no label, which keeps the allocator that it grows by.
    pub fn new(alloc: Global) -> Asm
        ensures emitted { result.emitted ≡ [] }
        ensures places { result.places ≡ [] }
    {
        Asm {
            alloc,
            emitted: Vec::new(alloc),
            places: Vec::new(alloc),
        }
    }

    /// Takes an instruction down.
    pub fn emit(&mut self, ins: Ins) -> Result<(), Memory>
        ensures ok { OnOk result (self.new ≡ appended self.old ins None) }
        ensures err { OnErr result (self.new ≡ self.old) }
    {
        self.emitted.push(Emitted { ins, label: None })?;
        Ok(())
    }

    /// A label that no instruction goes to yet, and that is not bound.
    pub fn label(&mut self) -> Result<u32, Memory>
        ensures label { IfOk result (λ label. label ≡ length self.old.places) }
        ensures ok { OnOk result (self.new ≡ labelled self.old) }
        ensures err { OnErr result (self.new ≡ self.old) }
    {
        let label = u32::try_from(self.places.len()).map_err(|_| Memory)?;
        self.places.push(None)?;
        Ok(label)
    }

    /// Binds a label to where the next instruction comes.
    pub fn bind(&mut self, label: u32)
        requires { slice_get self.old.places label ≡ Some None }
        ensures { self.new ≡ bound self.old label }
    {
        let place = self.emitted.len();
        self.places[label as usize] = Some(place);
    }

    /// Takes a jump or branch down that goes to a label. Its own distance does not count.
    pub fn emit_to(&mut self, ins: Ins, label: u32) -> Result<(), Memory>
        requires given { label < length self.old.places }
        requires jump_or_branch { IsJumpOrBranch ins }
        ensures ok { OnOk result (self.new ≡ appended self.old ins (Some label)) }
        ensures err { OnErr result (self.new ≡ self.old) }
    {
        self.emitted.push(Emitted {
            ins,
            label: Some(label),
        })?;
        Ok(())
    }

    /// The bytes of the program, each word with its lowest byte first. The fault is at the first
    /// jump or branch whose distance does not fit.
    pub fn finish(self) -> Result<Bytes, AsmFault>
        requires { AreBound self.places }
        ensures program { IfOk result (λ bytes. bytes ≡ bytes_of (program self)) }
        ensures legal { OnOk result (AllByRecursion IsLegal (program self)) }
        ensures reach { OnOk result (out_of_reach self ≡ None) }
        ensures fault { (label : ℕ) → result ≡ Err (AsmFault.OutOfReach label) → out_of_reach self ≡ Some label }
    {
        assembled(self.alloc, self.emitted.as_slice(), self.places.as_slice())
    }
}

fn assembled(
    alloc: Global,
    emitted: &[Emitted],
    places: &[Option<usize>],
) -> Result<Bytes, AsmFault>
    requires given { AreGiven emitted.now places.now }
    requires bound { AreBound places.now }
    ensures program { IfOk result (λ bytes. bytes ≡ bytes_of (filled_from places.now 0 emitted.now)) }
    ensures legal { OnOk result (AllByRecursion IsLegal (filled_from places.now 0 emitted.now)) }
    ensures reach { OnOk result (missed_from places.now 0 emitted.now ≡ None) }
    ensures fault { (label : ℕ) → result ≡ Err (AsmFault.OutOfReach label) →
        missed_from places.now 0 emitted.now ≡ Some label }
{
    let mut bytes = Bytes::new(alloc);
    for (at, next) in emitted.iter().enumerate() {
        match filled(places, at, next) {
            Ok(ins) => match push_word(&mut bytes, encode(&ins)) {
                Ok(()) => {}
                Err(_) => return Err(AsmFault::Memory),
            },
            Err(label) => return Err(AsmFault::OutOfReach(label)),
        }
    }
    Ok(bytes)
}

fn push_word(bytes: &mut Bytes, word: u32) -> Result<(), Memory>
    ensures { OnOk result (bytes.new ≡ bytes.old ++ little_bytes 4 word) }
{
    let mut four = [0; 4];
    LittleEndian::write_u32(&mut four, word);
    bytes.extend_from_slice(&four)
}

/// The instruction at a place with its distance, or the label that is too far.
fn filled(places: &[Option<usize>], at: usize, emitted: &Emitted) -> Result<Ins, u32>
    requires given { IfSome emitted.now.label (λ label. label < length places.now) }
    requires bound { AreBound places.now }
    ensures filled { IfOk result (λ ins. ins ≡ filled_in places.now at emitted.now.ins emitted.now.label) }
    ensures missed { MatchResult result
        (λ _. missed places.now at emitted.now.ins emitted.now.label ≡ None)
        (λ label. missed places.now at emitted.now.ins emitted.now.label ≡ Some label) }
{
    match emitted.label {
        None => Ok(emitted.ins),
        Some(label) => {
            let place = places[label as usize].unwrap();
            let distance = 4 * (place as i128) - 4 * (at as i128);
            match reaching(&emitted.ins, distance) {
                Some(ins) => Ok(ins),
                None => Err(label),
            }
        }
    }
}

/// The jump or branch with this distance, if it can go so far.
fn reaching(ins: &Ins, distance: i128) -> Option<Ins>
    requires { IsEven distance }
    ensures { result ≡ (if is_in_reach ins.now distance then Some (with_distance ins.now distance) else None) }
{
    match *ins {
        Ins::Jal { rd, .. } => jump_offset(distance).map(|imm| Ins::Jal { rd, imm }),
        Ins::Beq { rs1, rs2, .. } => {
            branch_offset(distance).map(|imm| Ins::Beq { rs1, rs2, imm })
        }
        Ins::Bne { rs1, rs2, .. } => {
            branch_offset(distance).map(|imm| Ins::Bne { rs1, rs2, imm })
        }
        Ins::Blt { rs1, rs2, .. } => {
            branch_offset(distance).map(|imm| Ins::Blt { rs1, rs2, imm })
        }
        Ins::Bge { rs1, rs2, .. } => {
            branch_offset(distance).map(|imm| Ins::Bge { rs1, rs2, imm })
        }
        Ins::Bltu { rs1, rs2, .. } => {
            branch_offset(distance).map(|imm| Ins::Bltu { rs1, rs2, imm })
        }
        Ins::Bgeu { rs1, rs2, .. } => {
            branch_offset(distance).map(|imm| Ins::Bgeu { rs1, rs2, imm })
        }
        other => Some(other),
    }
}

fn branch_offset(distance: i128) -> Option<BranchOffset>
    requires { IsEven distance }
    ensures { result ≡ (if is_in_branch_reach distance then Some distance else None) }
{
    if distance >= -4096 && distance <= 4094 {
        Some(BranchOffset::of(distance as i16))
    } else {
        None
    }
}

fn jump_offset(distance: i128) -> Option<JumpOffset>
    requires { IsEven distance }
    ensures { result ≡ (if is_in_jump_reach distance then Some distance else None) }
{
    if distance >= -1_048_576 && distance <= 1_048_574 {
        Some(JumpOffset::of(distance as i32))
    } else {
        None
    }
}
