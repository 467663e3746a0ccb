ghost use Rattle.std.specs.Prelude.{◌≡◌, ◌+◌, ◌/◌, ◌%◌, ◌^◌, ◌++◌, ◌<◌, ◌≤◌, length, take, OnOk};
ghost use Rattle.rv_isa.specs.Operands.{IsImmediate};
ghost use Rattle.rv_isa.specs.declared.ins.Ins.TheVariants.{Addi as AddiOf};
ghost use Rattle.rv_lines.specs.declared.line.Line.TheVariants.{Single};
ghost use Rattle.rv_lines.specs.Frame.{home as home_of, home_among as home_among_of, slot_place as slot_place_of};
ghost use Rattle.rv_lines.specs.Operands.{adds_far, gets_address, gets_slot, is_of_12_bits};
ghost use Rattle.rv_lines.specs.Operands.{is_of_32_bits, loads, loads_32_bits, loads_64_bits, loads_behind};
ghost use Rattle.rv_lines.specs.Operands.{loads_constant, puts_slot};
ghost use Rattle.rv_lines.specs.Operands.{reads_slot, register_or as register_or_of, stores, stores_behind, takes_bits};
ghost use Rattle.rv_lines.specs.Operands.{takes_lower_bits};
ghost use Rattle.rv_lines.specs.Operands.{writes_slot};
ghost use Rattle.rt_code.specs.Code.{lower as lower_of, upper as upper_of};

use crate::line::Line;
use lir_core::FIXED_BYTES;
use num_core::{List, Memory, Narrow};
use rv_isa::{Immediate, Ins, Register, ShiftAmount, UpperImmediate};

/// A register by its number.
pub fn x(number: u8) -> Register
    requires { number < 32 }
    ensures { result ≡ number }
{
    Register::of(number)
}

/// `addi` by a distance.
pub fn addi(rd: Register, rs1: Register, imm: i16) -> Line
    requires { IsImmediate imm }
    ensures { result ≡ Single (AddiOf rd rs1 imm) }
{
    Line::Single(Ins::Addi {
        rd,
        rs1,
        imm: Immediate::of(imm),
    })
}

/// Where a slot lies in its frame.
pub fn slot_place(slot: u32) -> u64
    ensures { result ≡ slot_place_of slot }
{
    u64::from(FIXED_BYTES) + 8 * u64::from(slot)
}

/// The first eight of slots.
pub fn first_eight(slots: &[u32]) -> &[u32]
    ensures value { result.now ≡ take 8 slots.now }
    ensures few { length result.now ≤ 8 }
{
    if slots.len() <= 8 { slots } else { &slots[..8] }
}

/// The home of a slot, if it is one of the first eight variables.
pub fn home(vars: &[u32], slot: u32) -> Option<Register>
    ensures { result ≡ home_of vars.now slot }
{
    home_of_word(vars, u64::from(slot))
}

/// The home of the slot of a number, if it is one of the first eight variables.
pub fn home_of_word(vars: &[u32], slot: u64) -> Option<Register>
    ensures { result ≡ home_of vars.now slot }
{
    home_among(18, first_eight(vars), slot)
}

/// The home of a slot among variables whose homes begin with a register.
fn home_among(register: u8, vars: &[u32], slot: u64) -> Option<Register>
    requires { register + length vars.now ≤ 32 }
    ensures { result ≡ home_among_of register vars.now slot }
{
    match vars.split_first() {
        Some((var, rest)) => {
            if u64::from(*var) == slot {
                Some(x(register))
            } else {
                home_among(register + 1, rest, slot)
            }
        }
        None => None,
    }
}

// ---- constants

/// A register gets a word.
#[tactic(auto, unfolding(crate::specs::Operands::loads_constant))]
pub fn load_constant(lines: &mut List<Line>, rd: Register, word: u64) -> Result<(), Memory>
    ensures { OnOk result (lines.new ≡ lines.old ++ loads_constant rd word) }
{
    if is_of_12_bits(word) {
        lines.extend_from_slice(&[Line::Single(Ins::Addi {
            rd,
            rs1: x(0),
            imm: lower(lower_half(word)),
        })])
    } else if is_of_32_bits(word) {
        load_32_bits(lines, rd, lower_half(word))
    } else {
        load_64_bits(lines, rd, word)
    }
}

/// The upper 32 bits of a word.
fn upper_half(word: u64) -> u32
    ensures { result ≡ word / 2 ^ 32 }
{
    (word / (1 << 32)) as u32
}

/// The lower 32 bits of a word.
fn lower_half(word: u64) -> u32
    ensures { result ≡ word % 2 ^ 32 }
{
    (word % (1 << 32)) as u32
}

/// Whether 12 bits with their sign extended are the word.
fn is_of_12_bits(word: u64) -> bool
    ensures { result ≡ is_of_12_bits word }
{
    word < 2048 || word > 0xffff_ffff_ffff_f7ff
}

/// Whether 32 bits with their sign extended are the word.
fn is_of_32_bits(word: u64) -> bool
    ensures { result ≡ is_of_32_bits word }
{
    word < 0x8000_0000 || word > 0xffff_ffff_7fff_ffff
}

/// A register gets 32 bits with their sign extended.
#[tactic(auto, unfolding(crate::specs::Operands::loads_32_bits))]
fn load_32_bits(lines: &mut List<Line>, rd: Register, word: u32) -> Result<(), Memory>
    ensures { OnOk result (lines.new ≡ lines.old ++ loads_32_bits rd word) }
{
    lines.extend_from_slice(&[
        Line::Single(Ins::Lui {
            rd,
            imm: upper(word),
        }),
        Line::Single(Ins::Addiw {
            rd,
            rs1: rd,
            imm: lower(word),
        }),
    ])
}

/// A register gets a word by its upper 32 bits, and then the others.
fn load_64_bits(lines: &mut List<Line>, rd: Register, word: u64) -> Result<(), Memory>
    ensures { OnOk result (lines.new ≡ lines.old ++ loads_64_bits rd word) }
{
    load_32_bits(lines, rd, upper_half(word))?;
    take_lower_bits(lines, rd, word)
}

/// A register moves up by 32 bits, with the lower ones of a word in their place.
#[tactic(auto, unfolding(crate::specs::Operands::takes_lower_bits))]
fn take_lower_bits(lines: &mut List<Line>, rd: Register, word: u64) -> Result<(), Memory>
    ensures { OnOk result (lines.new ≡ lines.old ++ takes_lower_bits rd word) }
{
    take_bits(lines, rd, 11, (word / (1 << 21) % 2048) as u16)?;
    take_bits(lines, rd, 11, (word / (1 << 10) % 2048) as u16)?;
    take_bits(lines, rd, 10, (word % 1024) as u16)
}

/// A register moves up by so many bits, with those of a number in their place.
fn take_bits(lines: &mut List<Line>, rd: Register, count: u32, number: u16) -> Result<(), Memory>
    requires count { count < 64 }
    requires number { number < 2048 }
    ensures { OnOk result (lines.new ≡ lines.old ++ takes_bits rd count number) }
{
    lines.extend_from_slice(&[
        Line::Single(Ins::Slli {
            rd,
            rs1: rd,
            shamt: ShiftAmount::of(count),
        }),
        Line::Single(Ins::Ori {
            rd,
            rs1: rd,
            imm: Immediate::of(number as i16),
        }),
    ])
}

/// The upper 20 bits of a word, rounded up where its lower 12 bits stand for a negative number.
pub fn upper(word: u32) -> UpperImmediate
    ensures { result ≡ upper_of word }
{
    UpperImmediate::of(word.wrapping_add(2048) >> 12)
}

/// The lower 12 bits of a word, as a signed number.
pub fn lower(word: u32) -> Immediate
    ensures { result ≡ lower_of word }
{
    let bits = (word % 4096) as i16;
    Immediate::of(if bits < 2048 { bits } else { bits - 4096 })
}

// ---- memory behind an address

/// A register gets the address so many bytes behind that which another has, by way of x28.
fn add_far(lines: &mut List<Line>, rd: Register, base: Register, offset: u64) -> Result<(), Memory>
    ensures { OnOk result (lines.new ≡ lines.old ++ adds_far rd base offset) }
{
    load_constant(lines, x(28), offset)?;
    lines.extend_from_slice(&[Line::Single(Ins::Add {
        rd,
        rs1: x(28),
        rs2: base,
    })])
}

/// A register gets the address so many bytes behind that which another has.
pub fn get_address(
    lines: &mut List<Line>,
    rd: Register,
    base: Register,
    offset: u64,
) -> Result<(), Memory>
    ensures { OnOk result (lines.new ≡ lines.old ++ gets_address rd base offset) }
{
    if offset < 2048 {
        lines.extend_from_slice(&[addi(rd, base, offset as i16)])
    } else {
        add_far(lines, rd, base, offset)
    }
}

/// A number of a type to a register.
pub fn load(narrow: Narrow, rd: Register, rs1: Register, imm: Immediate) -> Ins
    ensures { result ≡ loads narrow rd rs1 imm }
{
    match narrow {
        Narrow::I1 => Ins::Lb { rd, rs1, imm },
        Narrow::U1 => Ins::Lbu { rd, rs1, imm },
        Narrow::I2 => Ins::Lh { rd, rs1, imm },
        Narrow::U2 => Ins::Lhu { rd, rs1, imm },
        Narrow::I4 | Narrow::U4 => Ins::Lw { rd, rs1, imm },
        Narrow::I8 | Narrow::U8 => Ins::Ld { rd, rs1, imm },
    }
}

/// A number of a type from a register.
pub fn store(narrow: Narrow, rs2: Register, rs1: Register, imm: Immediate) -> Ins
    ensures { result ≡ stores narrow rs2 rs1 imm }
{
    match narrow {
        Narrow::I1 | Narrow::U1 => Ins::Sb { rs1, rs2, imm },
        Narrow::I2 | Narrow::U2 => Ins::Sh { rs1, rs2, imm },
        Narrow::I4 | Narrow::U4 => Ins::Sw { rs1, rs2, imm },
        Narrow::I8 | Narrow::U8 => Ins::Sd { rs1, rs2, imm },
    }
}

/// A number so many bytes behind an address to a register.
pub fn load_behind(
    lines: &mut List<Line>,
    narrow: Narrow,
    rd: Register,
    base: Register,
    offset: u64,
) -> Result<(), Memory>
    ensures { OnOk result (lines.new ≡ lines.old ++ loads_behind narrow rd base offset) }
{
    if offset < 2048 {
        let near = Immediate::of(offset as i16);
        return lines.extend_from_slice(&[Line::Single(load(narrow, rd, base, near))]);
    }
    add_far(lines, x(28), base, offset)?;
    lines.extend_from_slice(&[Line::Single(load(narrow, rd, x(28), Immediate::of(0)))])
}

/// A number from a register to so many bytes behind an address.
pub fn store_behind(
    lines: &mut List<Line>,
    narrow: Narrow,
    rs: Register,
    base: Register,
    offset: u64,
) -> Result<(), Memory>
    ensures { OnOk result (lines.new ≡ lines.old ++ stores_behind narrow rs base offset) }
{
    if offset < 2048 {
        let near = Immediate::of(offset as i16);
        return lines.extend_from_slice(&[Line::Single(store(narrow, rs, base, near))]);
    }
    add_far(lines, x(28), base, offset)?;
    lines.extend_from_slice(&[Line::Single(store(narrow, rs, x(28), Immediate::of(0)))])
}

// ---- slots

/// The home of a slot, or another register where there is none.
pub fn register_of(vars: &[u32], slot: u32, other: Register) -> Register
    ensures { result ≡ register_or_of (home_of vars.now slot) other }
{
    match home(vars, slot) {
        Some(register) => register,
        None => other,
    }
}

/// Another register gets the word of a slot that has no home.
pub fn read_slot(
    lines: &mut List<Line>,
    vars: &[u32],
    slot: u32,
    other: Register,
) -> Result<(), Memory>
    ensures { OnOk result (lines.new ≡ lines.old ++ reads_slot (home_of vars.now slot) other slot) }
{
    match home(vars, slot) {
        Some(_) => Ok(()),
        None => load_behind(lines, Narrow::I8, other, x(2), slot_place(slot)),
    }
}

/// A slot that has no home gets the word of another register.
pub fn write_slot(
    lines: &mut List<Line>,
    vars: &[u32],
    slot: u32,
    other: Register,
) -> Result<(), Memory>
    ensures { OnOk result (lines.new ≡ lines.old ++ writes_slot (home_of vars.now slot) other slot) }
{
    match home(vars, slot) {
        Some(_) => Ok(()),
        None => store_behind(lines, Narrow::I8, other, x(2), slot_place(slot)),
    }
}

/// A register gets the word of a slot.
pub fn get_slot(lines: &mut List<Line>, vars: &[u32], slot: u32, rd: Register) -> Result<(), Memory>
    ensures { OnOk result (lines.new ≡ lines.old ++ gets_slot (home_of vars.now slot) rd slot) }
{
    match home(vars, slot) {
        Some(register) => lines.extend_from_slice(&[addi(rd, register, 0)]),
        None => load_behind(lines, Narrow::I8, rd, x(2), slot_place(slot)),
    }
}

/// A slot gets the word of a register.
pub fn put_slot(lines: &mut List<Line>, vars: &[u32], slot: u32, rs: Register) -> Result<(), Memory>
    ensures { OnOk result (lines.new ≡ lines.old ++ puts_slot (home_of vars.now slot) rs slot) }
{
    match home(vars, slot) {
        Some(register) => lines.extend_from_slice(&[addi(register, rs, 0)]),
        None => store_behind(lines, Narrow::I8, rs, x(2), slot_place(slot)),
    }
}
