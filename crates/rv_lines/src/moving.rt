ghost use Rattle.std.specs.Prelude.{◌≡◌, ◌+◌, ◌*◌, ◌++◌, ◌<◌, ◌≤◌, OnOk};
ghost use Rattle.lir_core.specs.Pieces.{bytes_of_type};
ghost use Rattle.rv_lines.specs.Frame.{home as home_of};
ghost use Rattle.rv_lines.specs.Moving.{bytes_place as bytes_place_of, clears, clears_number};
ghost use Rattle.rv_lines.specs.Moving.{clears_rest, clears_word, clears_words, copies, finds_end, passes_word};
ghost use Rattle.rv_lines.specs.Moving.{gets_place, home_of_bytes as home_of_bytes_is, loads_frame, loads_place, moves};
ghost use Rattle.rv_lines.specs.Moving.{passes, passes_bytes, passes_rest, passes_words, stores_frame, stores_place};

use crate::line::Line;
use crate::operands::{
    addi, get_address, get_slot, home, home_of_word, load, load_behind, load_constant, read_slot,
    register_of, slot_place, store, store_behind, x,
};
use lir_core::{FIXED_BYTES, Place};
use num_core::{List, Memory, Narrow};
use rv_isa::{BranchOffset, Immediate, Ins, Register};

/// The word of a slot goes to another.
pub fn move_word(lines: &mut List<Line>, vars: &[u32], to: u32, from: u32) -> Result<(), Memory>
    ensures { OnOk result (lines.new ≡ lines.old ++ moves (home_of vars.now to) (home_of vars.now from) to from) }
{
    match home(vars, to) {
        Some(register) => get_slot(lines, vars, from, register),
        None => {
            read_slot(lines, vars, from, x(5))?;
            let held = register_of(vars, from, x(5));
            store_behind(lines, Narrow::I8, held, x(2), slot_place(to))
        }
    }
}

// ---- numbers at a place

/// How many bytes a number of the type has in memory.
fn size_of(narrow: Narrow) -> u32
    ensures { result ≡ bytes_of_type narrow }
{
    match narrow {
        Narrow::I1 | Narrow::U1 => 1,
        Narrow::I2 | Narrow::U2 => 2,
        Narrow::I4 | Narrow::U4 => 4,
        Narrow::I8 | Narrow::U8 => 8,
    }
}

/// How many bytes behind slot 0 a place in the frame lies.
fn behind_slots(slot: u32, offset: u32) -> u64
    ensures { result ≡ 8 * slot + offset }
{
    8 * u64::from(slot) + u64::from(offset)
}

/// Where bytes of a frame lie.
fn bytes_place(slot: u32, offset: u32) -> u64
    ensures { result ≡ bytes_place_of slot offset }
{
    u64::from(FIXED_BYTES) + behind_slots(slot, offset)
}

/// The home of the word that so many bytes from one on are.
fn home_of_bytes(vars: &[u32], from: u64, bytes: u32) -> Option<Register>
    ensures { result ≡ home_of_bytes_is vars.now from bytes }
{
    if bytes == 8 && from % 8 == 0 {
        home_of_word(vars, from / 8)
    } else {
        None
    }
}

fn load_frame(
    lines: &mut List<Line>,
    home: Option<Register>,
    narrow: Narrow,
    rd: Register,
    offset: u64,
) -> Result<(), Memory>
    ensures { OnOk result (lines.new ≡ lines.old ++ loads_frame home narrow rd offset) }
{
    match home {
        Some(register) => lines.extend_from_slice(&[addi(rd, register, 0)]),
        None => load_behind(lines, narrow, rd, x(2), offset),
    }
}

fn store_frame(
    lines: &mut List<Line>,
    home: Option<Register>,
    narrow: Narrow,
    rs: Register,
    offset: u64,
) -> Result<(), Memory>
    ensures { OnOk result (lines.new ≡ lines.old ++ stores_frame home narrow rs offset) }
{
    match home {
        Some(register) => lines.extend_from_slice(&[addi(register, rs, 0)]),
        None => store_behind(lines, narrow, rs, x(2), offset),
    }
}

/// A number at a place to a register.
pub fn load_place(
    lines: &mut List<Line>,
    vars: &[u32],
    narrow: Narrow,
    rd: Register,
    from: Place,
) -> Result<(), Memory>
    ensures { OnOk result (lines.new ≡ lines.old ++ loads_place vars.now narrow rd from) }
{
    match from {
        Place::Slot { slot, offset } => {
            let home = home_of_bytes(vars, behind_slots(slot, offset), size_of(narrow));
            load_frame(lines, home, narrow, rd, bytes_place(slot, offset))
        }
        Place::Flat { base, offset } => {
            read_slot(lines, vars, base, x(5))?;
            load_behind(
                lines,
                narrow,
                rd,
                register_of(vars, base, x(5)),
                u64::from(offset),
            )
        }
    }
}

/// A number from a register to a place.
pub fn store_place(
    lines: &mut List<Line>,
    vars: &[u32],
    narrow: Narrow,
    rs: Register,
    to: Place,
) -> Result<(), Memory>
    ensures { OnOk result (lines.new ≡ lines.old ++ stores_place vars.now narrow rs to) }
{
    match to {
        Place::Slot { slot, offset } => {
            let home = home_of_bytes(vars, behind_slots(slot, offset), size_of(narrow));
            store_frame(lines, home, narrow, rs, bytes_place(slot, offset))
        }
        Place::Flat { base, offset } => {
            read_slot(lines, vars, base, x(5))?;
            store_behind(
                lines,
                narrow,
                rs,
                register_of(vars, base, x(5)),
                u64::from(offset),
            )
        }
    }
}

// ---- many bytes

/// A register gets the address of a place.
fn get_place(lines: &mut List<Line>, vars: &[u32], rd: Register, place: Place) -> Result<(), Memory>
    ensures { OnOk result (lines.new ≡ lines.old ++ gets_place vars.now rd place) }
{
    match place {
        Place::Slot { slot, offset } => get_address(lines, rd, x(2), bytes_place(slot, offset)),
        Place::Flat { base, offset } => {
            read_slot(lines, vars, base, rd)?;
            get_address(lines, rd, register_of(vars, base, rd), u64::from(offset))
        }
    }
}

/// A number so many bytes behind the addresses in x5 and x6 goes from the first place to the second.
fn pass(lines: &mut List<Line>, narrow: Narrow, offset: u8) -> Result<(), Memory>
    ensures { OnOk result (lines.new ≡ lines.old ++ passes narrow offset) }
{
    let behind = Immediate::of(offset as i16);
    lines.extend_from_slice(&[
        Line::Single(load(narrow, x(7), x(5), behind)),
        Line::Single(store(narrow, x(7), x(6), behind)),
    ])
}

/// x28 gets the address behind so many words from that in a register on.
fn find_end(lines: &mut List<Line>, begin: Register, words: u32) -> Result<(), Memory>
    ensures { OnOk result (lines.new ≡ lines.old ++ finds_end begin words) }
{
    load_constant(lines, x(28), 8 * u64::from(words))?;
    lines.extend_from_slice(&[Line::Single(Ins::Add {
        rd: x(28),
        rs1: x(28),
        rs2: begin,
    })])
}

/// A word goes from the address in x5 to that in x6, which move behind it, again until x5 is x28.
fn pass_word(lines: &mut List<Line>) -> Result<(), Memory>
    ensures { OnOk result (lines.new ≡ lines.old ++ passes_word) }
{
    lines.extend_from_slice(&[
        Line::Single(Ins::Ld {
            rd: x(7),
            rs1: x(5),
            imm: Immediate::of(0),
        }),
        Line::Single(Ins::Sd {
            rs1: x(6),
            rs2: x(7),
            imm: Immediate::of(0),
        }),
        addi(x(5), x(5), 8),
        addi(x(6), x(6), 8),
        Line::Single(Ins::Bne {
            rs1: x(5),
            rs2: x(28),
            imm: BranchOffset::of(-16),
        }),
    ])
}

/// So many words go from the address in x5 to that in x6, one after another.
pub fn pass_words(lines: &mut List<Line>, words: u32) -> Result<(), Memory>
    ensures { OnOk result (lines.new ≡ lines.old ++ passes_words words) }
{
    if words == 0 {
        return Ok(());
    }
    find_end(lines, x(5), words)?;
    pass_word(lines)
}

/// Fewer than eight bytes do.
fn pass_rest(lines: &mut List<Line>, rest: u8) -> Result<(), Memory>
    requires { rest < 8 }
    ensures { OnOk result (lines.new ≡ lines.old ++ passes_rest rest) }
{
    if rest >= 4 {
        pass(lines, Narrow::I4, 0)?;
    }
    if rest % 4 / 2 != 0 {
        pass(lines, Narrow::I2, rest / 4 * 4)?;
    }
    if rest % 2 != 0 {
        pass(lines, Narrow::I1, rest / 2 * 2)?;
    }
    Ok(())
}

fn pass_bytes(lines: &mut List<Line>, bytes: u32) -> Result<(), Memory>
    ensures { OnOk result (lines.new ≡ lines.old ++ passes_bytes bytes) }
{
    pass_words(lines, bytes / 8)?;
    pass_rest(lines, (bytes % 8) as u8)
}

/// Bytes go from a place to another.
pub fn copy(
    lines: &mut List<Line>,
    vars: &[u32],
    to: Place,
    from: Place,
    bytes: u32,
) -> Result<(), Memory>
    ensures { OnOk result (lines.new ≡ lines.old ++ copies vars.now to from bytes) }
{
    if bytes == 8 {
        load_place(lines, vars, Narrow::I8, x(7), from)?;
        return store_place(lines, vars, Narrow::I8, x(7), to);
    }
    get_place(lines, vars, x(5), from)?;
    get_place(lines, vars, x(6), to)?;
    pass_bytes(lines, bytes)
}

/// A number of 0 so many bytes behind the address in x6.
fn clear_number(lines: &mut List<Line>, narrow: Narrow, offset: u8) -> Result<(), Memory>
    ensures { OnOk result (lines.new ≡ lines.old ++ clears_number narrow offset) }
{
    let behind = Immediate::of(offset as i16);
    lines.extend_from_slice(&[Line::Single(store(narrow, x(0), x(6), behind))])
}

/// A word of 0 at the address in x6, which moves behind it, again until that is x28.
fn clear_word(lines: &mut List<Line>) -> Result<(), Memory>
    ensures { OnOk result (lines.new ≡ lines.old ++ clears_word) }
{
    lines.extend_from_slice(&[
        Line::Single(Ins::Sd {
            rs1: x(6),
            rs2: x(0),
            imm: Immediate::of(0),
        }),
        addi(x(6), x(6), 8),
        Line::Single(Ins::Bne {
            rs1: x(6),
            rs2: x(28),
            imm: BranchOffset::of(-8),
        }),
    ])
}

/// So many words of 0 from the address in x6 on.
pub fn clear_words(lines: &mut List<Line>, words: u32) -> Result<(), Memory>
    ensures { OnOk result (lines.new ≡ lines.old ++ clears_words words) }
{
    if words == 0 {
        return Ok(());
    }
    find_end(lines, x(6), words)?;
    clear_word(lines)
}

fn clear_rest(lines: &mut List<Line>, rest: u8) -> Result<(), Memory>
    requires { rest < 8 }
    ensures { OnOk result (lines.new ≡ lines.old ++ clears_rest rest) }
{
    if rest >= 4 {
        clear_number(lines, Narrow::I4, 0)?;
    }
    if rest % 4 / 2 != 0 {
        clear_number(lines, Narrow::I2, rest / 4 * 4)?;
    }
    if rest % 2 != 0 {
        clear_number(lines, Narrow::I1, rest / 2 * 2)?;
    }
    Ok(())
}

/// Bytes of 0 at a place.
pub fn clear(lines: &mut List<Line>, vars: &[u32], to: Place, bytes: u32) -> Result<(), Memory>
    ensures { OnOk result (lines.new ≡ lines.old ++ clears vars.now to bytes) }
{
    if bytes == 8 {
        return store_place(lines, vars, Narrow::I8, x(0), to);
    }
    get_place(lines, vars, x(6), to)?;
    clear_words(lines, bytes / 8)?;
    clear_rest(lines, (bytes % 8) as u8)
}
