ghost use Rattle.std.specs.Prelude.{◌≡◌, ◌+◌, ◌++◌, ◌≤◌, length, pos, OnOk};
ghost use Rattle.std.specs.List.{flat_map};
ghost use Rattle.rt_code.specs.Effects.{number_of};
ghost use Rattle.rv_isa.specs.Operands.{IsImmediate};
ghost use Rattle.rv_isa.specs.declared.ins.Ins.{Ins as InsOf};
ghost use Rattle.rv_lines.specs.declared.line.Line.TheVariants.{Single};
ghost use Rattle.rv_gen.specs.Calling.{calls, calls_routine, clears_block, does_routine, enters, finds_frame};
ghost use Rattle.rv_gen.specs.Calling.{gets_callee, gets_item, gives_argument, gives_dictionary, gives_result};
ghost use Rattle.rv_gen.specs.Calling.{goes_to_routine};
ghost use Rattle.rv_gen.specs.Calling.{loads_homes, passes_to_routine, restores_homes, returns, saves_homes};
ghost use Rattle.rv_gen.specs.Calling.{takes_frame, takes_result, takes_word};

use lir_core::{Argument, Block, Callee, LirBody};
use num_core::{FixKind, List, Memory, Narrow};
use rt_code::Routine;
use rv_isa::{BranchOffset, Immediate, Ins, Register, ShiftAmount, UpperImmediate};
use rv_lines::line::Line;
use rv_lines::moving::{clear_words, pass_words};
use rv_lines::operands::{
    addi, first_eight, get_address, get_slot, load_behind, load_constant, put_slot, read_slot,
    register_of, slot_place, store_behind, x,
};

/// Where a frame has its return address.
const RETURN_AT: i16 = 0;

/// Where a frame has the homes of its caller.
const HOMES_AT: i16 = 8;

/// Where a frame has its dictionary.
pub(crate) const DICTIONARY_AT: i16 = 72;

/// The first of the homes.
const FIRST_HOME: u8 = 18;

// ---- addresses that a fix names

/// The `auipc` in front of an instruction that adds the low 12 bits.
fn upper(rd: Register) -> Ins
    ensures { result ≡ InsOf.Auipc rd 0 }
{
    Ins::Auipc {
        rd,
        imm: UpperImmediate::of(0),
    }
}

/// A jump to the address that a register has.
fn jump_to(rd: Register, rs1: Register) -> Ins
    ensures { result ≡ InsOf.Jalr rd rs1 (pos 0) }
{
    Ins::Jalr {
        rd,
        rs1,
        imm: Immediate::of(0),
    }
}

/// A word in a frame to a register.
pub(crate) fn load_fixed(rd: Register, at: i16) -> Line
    requires { IsImmediate at }
    ensures { result ≡ Single (InsOf.Ld rd 2 at) }
{
    Line::Single(Ins::Ld {
        rd,
        rs1: x(2),
        imm: Immediate::of(at),
    })
}

/// A word in a frame from a register.
fn store_fixed(rs: Register, base: Register, at: i16) -> Line
    requires { IsImmediate at }
    ensures { result ≡ Single (InsOf.Sd base rs at) }
{
    Line::Single(Ins::Sd {
        rs1: base,
        rs2: rs,
        imm: Immediate::of(at),
    })
}

/// A register gets the address of an item.
pub(crate) fn get_item(
    lines: &mut List<Line>,
    rd: Register,
    kind: FixKind,
    item: u32,
) -> Result<(), Memory>
    ensures { OnOk result (lines.new ≡ lines.old ++ gets_item rd kind item) }
{
    lines.extend_from_slice(&[Line::Addressed {
        upper: upper(rd),
        lower: Ins::Addi {
            rd,
            rs1: rd,
            imm: Immediate::of(0),
        },
        kind,
        item,
    }])
}

/// Calls a routine.
fn call_routine(lines: &mut List<Line>, number: u32) -> Result<(), Memory>
    ensures { OnOk result (lines.new ≡ lines.old ++ calls_routine number) }
{
    lines.extend_from_slice(&[Line::Addressed {
        upper: upper(x(1)),
        lower: jump_to(x(1), x(1)),
        kind: FixKind::Routine,
        item: number,
    }])
}

/// Goes to a routine that doesn't come back.
pub(crate) fn go_to_routine(lines: &mut List<Line>, which: Routine) -> Result<(), Memory>
    ensures { OnOk result (lines.new ≡ lines.old ++ goes_to_routine (number_of which)) }
{
    lines.extend_from_slice(&[Line::Addressed {
        upper: upper(x(5)),
        lower: jump_to(x(0), x(5)),
        kind: FixKind::Routine,
        item: which.number(),
    }])
}

// ---- the begin and the end of a body

/// x2 gets the address of a frame of so many bytes below it.
fn take_frame(lines: &mut List<Line>, bytes: u32) -> Result<(), Memory>
    ensures { OnOk result (lines.new ≡ lines.old ++ takes_frame bytes) }
{
    if bytes < 2048 {
        return lines.extend_from_slice(&[addi(x(2), x(2), -(bytes as i16))]);
    }
    load_constant(lines, x(28), u64::from(bytes))?;
    lines.extend_from_slice(&[Line::Single(Ins::Sub {
        rd: x(2),
        rs1: x(2),
        rs2: x(28),
    })])
}

/// Saves the homes of variables from that of a number on.
fn save_homes(lines: &mut List<Line>, k: u8, vars: &[u32]) -> Result<(), Memory>
    requires { k + length vars.now ≤ 8 }
    ensures { OnOk result (lines.new ≡ lines.old ++ saves_homes k vars.now) }
{
    match vars.split_first() {
        None => Ok(()),
        Some((_, rest)) => {
            let at = HOMES_AT + 8 * (k as i16);
            lines.extend_from_slice(&[store_fixed(x(FIRST_HOME + k), x(2), at)])?;
            save_homes(lines, k + 1, rest)
        }
    }
}

/// Loads them from their slots.
fn load_homes(lines: &mut List<Line>, k: u8, vars: &[u32]) -> Result<(), Memory>
    requires { k + length vars.now ≤ 8 }
    ensures { OnOk result (lines.new ≡ lines.old ++ loads_homes k vars.now) }
{
    match vars.split_first() {
        None => Ok(()),
        Some((var, rest)) => {
            load_behind(lines, Narrow::I8, x(FIRST_HOME + k), x(2), slot_place(*var))?;
            load_homes(lines, k + 1, rest)
        }
    }
}

/// Restores them as they were saved.
fn restore_homes(lines: &mut List<Line>, k: u8, vars: &[u32]) -> Result<(), Memory>
    requires { k + length vars.now ≤ 8 }
    ensures { OnOk result (lines.new ≡ lines.old ++ restores_homes k vars.now) }
{
    match vars.split_first() {
        None => Ok(()),
        Some((_, rest)) => {
            let at = HOMES_AT + 8 * (k as i16);
            lines.extend_from_slice(&[load_fixed(x(FIRST_HOME + k), at)])?;
            restore_homes(lines, k + 1, rest)
        }
    }
}

/// The begin of a body.
pub(crate) fn enter(lines: &mut List<Line>, body: &LirBody) -> Result<(), Memory>
    ensures { OnOk result (lines.new ≡ lines.old ++ enters body.now) }
{
    let vars = first_eight(body.vars.as_slice());
    lines.extend_from_slice(&[Line::Single(Ins::Lui {
        rd: x(0),
        imm: UpperImmediate::of(body.frame),
    })])?;
    take_frame(lines, body.frame)?;
    lines.extend_from_slice(&[store_fixed(x(1), x(2), RETURN_AT)])?;
    save_homes(lines, 0, vars)?;
    load_homes(lines, 0, vars)
}

/// x10 gets what a body returns.
fn give_result(lines: &mut List<Line>, vars: &[u32], block: Block) -> Result<(), Memory>
    ensures { OnOk result (lines.new ≡ lines.old ++ gives_result vars.now block) }
{
    if block.words == 0 {
        return lines.extend_from_slice(&[addi(x(10), x(0), 0)]);
    }
    if block.words == 1 {
        return get_slot(lines, vars, block.slot, x(10));
    }
    get_address(lines, x(10), x(2), slot_place(block.slot))
}

/// The end of a body, with a result.
pub(crate) fn return_from(
    lines: &mut List<Line>,
    body: &LirBody,
    block: Block,
) -> Result<(), Memory>
    ensures { OnOk result (lines.new ≡ lines.old ++ returns body.now block) }
{
    let vars = body.vars.as_slice();
    give_result(lines, vars, block)?;
    restore_homes(lines, 0, first_eight(vars))?;
    lines.extend_from_slice(&[load_fixed(x(1), RETURN_AT)])?;
    get_address(lines, x(2), x(2), u64::from(body.frame))?;
    lines.extend_from_slice(&[Line::Single(jump_to(x(0), x(1)))])
}

// ---- calls

/// x30 gets the address of the body that a call enters.
fn get_callee(lines: &mut List<Line>, vars: &[u32], callee: Callee) -> Result<(), Memory>
    ensures { OnOk result (lines.new ≡ lines.old ++ gets_callee vars.now callee) }
{
    match callee {
        Callee::Body(item) => get_item(lines, x(30), FixKind::Code, item),
        Callee::Through(slot) => get_slot(lines, vars, slot, x(30)),
    }
}

/// x31 gets the address of the frame to be, if it fits.
fn find_frame(lines: &mut List<Line>) -> Result<(), Memory>
    ensures { OnOk result (lines.new ≡ lines.old ++ finds_frame) }
{
    lines.extend_from_slice(&[
        Line::Single(Ins::Lwu {
            rd: x(7),
            rs1: x(30),
            imm: Immediate::of(0),
        }),
        Line::Single(Ins::Srli {
            rd: x(7),
            rs1: x(7),
            shamt: ShiftAmount::of(12),
        }),
        Line::Single(Ins::Sub {
            rd: x(5),
            rs1: x(2),
            rs2: x(26),
        }),
        Line::Single(Ins::Bgeu {
            rs1: x(5),
            rs2: x(7),
            imm: BranchOffset::of(12),
        }),
    ])?;
    go_to_routine(lines, Routine::StackBound)?;
    lines.extend_from_slice(&[Line::Single(Ins::Sub {
        rd: x(31),
        rs1: x(2),
        rs2: x(7),
    })])
}

/// Words of this frame go to slots of the frame to be.
fn give_argument(lines: &mut List<Line>, vars: &[u32], argument: Argument) -> Result<(), Memory>
    ensures { OnOk result (lines.new ≡ lines.old ++ gives_argument vars.now argument) }
{
    if argument.words == 1 {
        read_slot(lines, vars, argument.from, x(5))?;
        let held = register_of(vars, argument.from, x(5));
        return store_behind(lines, Narrow::I8, held, x(31), slot_place(argument.to));
    }
    get_address(lines, x(5), x(2), slot_place(argument.from))?;
    get_address(lines, x(6), x(31), slot_place(argument.to))?;
    pass_words(lines, argument.words)
}

fn give_arguments(
    lines: &mut List<Line>,
    vars: &[u32],
    arguments: &[Argument],
) -> Result<(), Memory>
    ensures { OnOk result (lines.new ≡ lines.old ++ flat_map (gives_argument vars.now) arguments.now) }
{
    for argument in arguments {
        give_argument(lines, vars, *argument)?;
    }
    Ok(())
}

/// The frame to be gets its dictionary, if it takes one.
fn give_dictionary(
    lines: &mut List<Line>,
    vars: &[u32],
    dictionary: Option<u32>,
) -> Result<(), Memory>
    ensures { OnOk result (lines.new ≡ lines.old ++ gives_dictionary vars.now dictionary) }
{
    match dictionary {
        None => Ok(()),
        Some(slot) => {
            read_slot(lines, vars, slot, x(5))?;
            let held = register_of(vars, slot, x(5));
            lines.extend_from_slice(&[store_fixed(held, x(31), DICTIONARY_AT)])
        }
    }
}

/// Slots get 0.
fn clear_block(lines: &mut List<Line>, vars: &[u32], block: Block) -> Result<(), Memory>
    ensures { OnOk result (lines.new ≡ lines.old ++ clears_block vars.now block) }
{
    if block.words == 0 {
        return Ok(());
    }
    if block.words == 1 {
        return put_slot(lines, vars, block.slot, x(0));
    }
    get_address(lines, x(6), x(2), slot_place(block.slot))?;
    clear_words(lines, block.words)
}

/// The result of a call goes to its slots.
fn take_result(lines: &mut List<Line>, vars: &[u32], block: Block) -> Result<(), Memory>
    ensures { OnOk result (lines.new ≡ lines.old ++ takes_result vars.now block) }
{
    if block.words == 0 {
        return Ok(());
    }
    if block.words == 1 {
        return put_slot(lines, vars, block.slot, x(10));
    }
    lines.extend_from_slice(&[addi(x(5), x(10), 0)])?;
    get_address(lines, x(6), x(2), slot_place(block.slot))?;
    pass_words(lines, block.words)
}

/// A call.
pub(crate) fn call(
    lines: &mut List<Line>,
    vars: &[u32],
    callee: Callee,
    dictionary: Option<u32>,
    arguments: &[Argument],
    cleared: Block,
    block: Block,
) -> Result<(), Memory>
    ensures { OnOk result (lines.new ≡ lines.old ++ calls vars.now callee dictionary arguments.now cleared block) }
{
    get_callee(lines, vars, callee)?;
    find_frame(lines)?;
    give_arguments(lines, vars, arguments)?;
    give_dictionary(lines, vars, dictionary)?;
    clear_block(lines, vars, cleared)?;
    lines.extend_from_slice(&[Line::Single(jump_to(x(1), x(30)))])?;
    take_result(lines, vars, block)
}

// ---- routines

/// The words that a routine takes, from that for a register on.
fn pass_to_routine(
    lines: &mut List<Line>,
    vars: &[u32],
    register: u8,
    slots: &[u32],
) -> Result<(), Memory>
    requires { register + length slots.now ≤ 18 }
    ensures { OnOk result (lines.new ≡ lines.old ++ passes_to_routine vars.now register slots.now) }
{
    match slots.split_first() {
        None => Ok(()),
        Some((slot, rest)) => {
            get_slot(lines, vars, *slot, x(register))?;
            pass_to_routine(lines, vars, register + 1, rest)
        }
    }
}

/// A slot gets the word that a routine gives, if one takes it.
fn take_word(lines: &mut List<Line>, vars: &[u32], to: Option<u32>) -> Result<(), Memory>
    ensures { OnOk result (lines.new ≡ lines.old ++ takes_word vars.now to) }
{
    match to {
        None => Ok(()),
        Some(slot) => put_slot(lines, vars, slot, x(10)),
    }
}

/// What a routine does with the words of slots, of which it takes eight.
pub(crate) fn do_routine(
    lines: &mut List<Line>,
    vars: &[u32],
    number: u32,
    arguments: &[u32],
    to: Option<u32>,
) -> Result<(), Memory>
    ensures { OnOk result (lines.new ≡ lines.old ++ does_routine vars.now number arguments.now to) }
{
    pass_to_routine(lines, vars, 10, first_eight(arguments))?;
    call_routine(lines, number)?;
    take_word(lines, vars, to)
}
