ghost use Rattle.std.specs.Prelude.{◌≡◌, ◌++◌, ◌<◌, ◌≤◌, pos, length, IfOk, OnOk};
ghost use Rattle.rv_isa.specs.Operands.{IsImmediate};
ghost use Rattle.rv_isa.specs.declared.ins.Ins.{Ins as InsOf};
ghost use Rattle.rt_code.specs.Code.{code_of, line as line_of, lower as lower_of, puts, word_in};
ghost use Rattle.rt_code.specs.Code.{stack_line as stack_line_of, upper as upper_of};
ghost use Rattle.rt_code.specs.Effects.{HasEffect};
ghost use Rattle.rt_code.specs.declared.routines.Routine.{Routine as RoutineOf};

use crate::routines::Routine;
use byteorder::{ByteOrder, LittleEndian};
use num_core::{List, Memory};
use rv_isa::{BranchOffset, Immediate, Ins, Register, ShiftAmount, UpperImmediate};
use std::alloc::Global;

/// Where a routine may write in the innermost frame.
const SCRATCH: i16 = 96;

/// Where a frame has its first argument.
const FIRST_ARGUMENT: i16 = 192;

/// The numbers of the environment's calls.
const READ: i16 = 63;

const WRITE: i16 = 64;

const EXIT: i16 = 93;

/// The status of a program that a bound or an exception ends.
const FAILED: i16 = 134;

/// The instructions of a routine. It refers to nothing outside of it, so its code can stand at any address that is a
/// multiple of 4. In front of `Start` stand three words of 8 bytes: the address of the root, and the bounds of heap and
/// stack.
#[tactic(auto, using(crate::proofs::Whole::has_effect))]
pub fn routine(alloc: Global, which: Routine) -> Result<List<Ins>, Memory>
    ensures code { IfOk result (λ code. code ≡ code_of which) }
    ensures effect { IfOk result (HasEffect which) }
{
    instructions(alloc, which)
}

fn instructions(alloc: Global, which: Routine) -> Result<List<Ins>, Memory>
    ensures { IfOk result (λ code. code ≡ code_of which) }
{
    match which {
        Routine::Start => start(alloc),
        Routine::End => List::from_slice(alloc, &[addi(17, 0, EXIT), Ins::Ecall]),
        Routine::WriteByte => write_byte(alloc),
        Routine::ReadByte => read_byte(alloc),
        Routine::StackBound => stack_line(alloc),
        Routine::HeapBound => line(alloc, b"heap bound reached\n\0", 19),
        Routine::Unhandled => line(alloc, b"Unhandled exception\n", 20),
    }
}

/// Finds the root and the bounds in front of the code, and by them the heap, the frames behind it and their end. At the
/// root it finds the first body, which says in its first instruction how large its frame is, and its argument, which
/// goes to where that body has its first one.
fn start(alloc: Global) -> Result<List<Ins>, Memory>
    ensures { IfOk result (λ code. code ≡ code_of RoutineOf.Start) }
{
    let mut code = List::from_slice(
        alloc,
        &[
            Ins::Auipc {
                rd: x(5),
                imm: UpperImmediate::of(0),
            },
            load(3, 5, -24),
            load(6, 3, 16),
            add(27, 3, 6),
            load(6, 5, -16),
            add(26, 27, 6),
            load(6, 5, -8),
            add(2, 26, 6),
            load(28, 3, 0),
        ],
    )?;
    code.extend_from_slice(&[
        Ins::Lwu {
            rd: x(7),
            rs1: x(28),
            imm: Immediate::of(0),
        },
        Ins::Srli {
            rd: x(7),
            rs1: x(7),
            shamt: ShiftAmount::of(12),
        },
        Ins::Bltu {
            rs1: x(6),
            rs2: x(7),
            imm: BranchOffset::of(28),
        },
        Ins::Sub {
            rd: x(5),
            rs1: x(2),
            rs2: x(7),
        },
        load(29, 3, 8),
        Ins::Sd {
            rs1: x(5),
            rs2: x(29),
            imm: Immediate::of(FIRST_ARGUMENT),
        },
        jalr(1, 28),
        addi(17, 0, EXIT),
        Ins::Ecall,
    ])?;
    let line = stack_line(alloc)?;
    code.extend_from_slice(line.as_slice())?;
    Ok(code)
}

fn write_byte(alloc: Global) -> Result<List<Ins>, Memory>
    ensures { IfOk result (λ code. code ≡ code_of RoutineOf.WriteByte) }
{
    List::from_slice(
        alloc,
        &[
            Ins::Sb {
                rs1: x(2),
                rs2: x(10),
                imm: Immediate::of(SCRATCH),
            },
            addi(11, 2, SCRATCH),
            addi(10, 0, 1),
            addi(12, 0, 1),
            addi(17, 0, WRITE),
            Ins::Ecall,
            jalr(0, 1),
        ],
    )
}

fn read_byte(alloc: Global) -> Result<List<Ins>, Memory>
    ensures { IfOk result (λ code. code ≡ code_of RoutineOf.ReadByte) }
{
    List::from_slice(
        alloc,
        &[
            addi(11, 2, SCRATCH),
            addi(10, 0, 0),
            addi(12, 0, 1),
            addi(17, 0, READ),
            Ins::Ecall,
            Ins::Beq {
                rs1: x(10),
                rs2: x(0),
                imm: BranchOffset::of(12),
            },
            Ins::Lbu {
                rd: x(10),
                rs1: x(2),
                imm: Immediate::of(SCRATCH),
            },
            jalr(0, 1),
            addi(10, 0, -1),
            jalr(0, 1),
        ],
    )
}

/// Tells that the bound of the stack is reached.
fn stack_line(alloc: Global) -> Result<List<Ins>, Memory>
    ensures { IfOk result (λ code. code ≡ stack_line_of) }
{
    line(alloc, b"stack bound reached\n", 20)
}

/// Writes the first bytes of a text as error text, and ends the program.
fn line(alloc: Global, text: &[u8], count: u8) -> Result<List<Ins>, Memory>
    requires size { length text.now ≡ 20 }
    ensures { IfOk result (λ code. code ≡ line_of text.now count) }
{
    let mut code = List::new(alloc);
    put(&mut code, text, 0)?;
    put(&mut code, text, 4)?;
    put(&mut code, text, 8)?;
    put(&mut code, text, 12)?;
    put(&mut code, text, 16)?;
    code.extend_from_slice(&[
        addi(11, 2, SCRATCH),
        addi(10, 0, 2),
        addi(12, 0, count as i16),
        addi(17, 0, WRITE),
        Ins::Ecall,
        addi(10, 0, FAILED),
        addi(17, 0, EXIT),
        Ins::Ecall,
    ])?;
    Ok(code)
}

/// Puts four bytes of a text, from one on, into the scratch bytes at the same place.
fn put(code: &mut List<Ins>, text: &[u8], from: u8) -> Result<(), Memory>
    requires size { length text.now ≡ 20 }
    requires within { from ≤ 16 }
    ensures { OnOk result (code.new ≡ code.old ++ puts from (word_in text.now from)) }
{
    let word = LittleEndian::read_u32(&text[from as usize..]);
    code.extend_from_slice(&[
        Ins::Lui {
            rd: x(5),
            imm: upper(word),
        },
        Ins::Addiw {
            rd: x(5),
            rs1: x(5),
            imm: lower(word),
        },
        Ins::Sw {
            rs1: x(2),
            rs2: x(5),
            imm: Immediate::of(SCRATCH + from as i16),
        },
    ])
}

/// The upper 20 bits of a word, rounded up where its lower 12 bits stand for a negative number.
fn upper(word: u32) -> UpperImmediate
    ensures { result ≡ upper_of word }
{
    UpperImmediate::of(word.wrapping_add(2048) >> 12)
}

/// The lower 12 bits of a word, as a signed number.
fn lower(word: u32) -> Immediate
    ensures { result ≡ lower_of word }
{
    let bits = (word % 4096) as i16;
    Immediate::of(if bits < 2048 { bits } else { bits - 4096 })
}

/// A register by its number.
fn x(number: u8) -> Register
    requires { number < 32 }
    ensures { result ≡ number }
{
    Register::of(number)
}

fn addi(rd: u8, rs1: u8, imm: i16) -> Ins
    requires rd { rd < 32 }
    requires rs1 { rs1 < 32 }
    requires imm { IsImmediate imm }
    ensures { result ≡ InsOf.Addi rd rs1 imm }
{
    Ins::Addi {
        rd: x(rd),
        rs1: x(rs1),
        imm: Immediate::of(imm),
    }
}

/// A word of 8 bytes at a distance from what a register has.
fn load(rd: u8, rs1: u8, imm: i16) -> Ins
    requires rd { rd < 32 }
    requires rs1 { rs1 < 32 }
    requires imm { IsImmediate imm }
    ensures { result ≡ InsOf.Ld rd rs1 imm }
{
    Ins::Ld {
        rd: x(rd),
        rs1: x(rs1),
        imm: Immediate::of(imm),
    }
}

/// The sum of what two registers have.
fn add(rd: u8, rs1: u8, rs2: u8) -> Ins
    requires rd { rd < 32 }
    requires rs1 { rs1 < 32 }
    requires rs2 { rs2 < 32 }
    ensures { result ≡ InsOf.Add rd rs1 rs2 }
{
    Ins::Add {
        rd: x(rd),
        rs1: x(rs1),
        rs2: x(rs2),
    }
}

/// A jump to the address that a register has.
fn jalr(rd: u8, rs1: u8) -> Ins
    requires rd { rd < 32 }
    requires rs1 { rs1 < 32 }
    ensures { result ≡ InsOf.Jalr rd rs1 (pos 0) }
{
    Ins::Jalr {
        rd: x(rd),
        rs1: x(rs1),
        imm: Immediate::of(0),
    }
}
