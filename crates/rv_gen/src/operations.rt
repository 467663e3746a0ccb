ghost use Rattle.std.specs.Prelude.{◌≡◌, ◌++◌, ◌∷◌, [], OnOk, IfOk};
ghost use Rattle.rv_lines.specs.Frame.{home as home_of};
ghost use Rattle.rv_lines.specs.Operands.{reads_slot, register_or as register_or_of};
ghost use Rattle.rv_lines.specs.declared.line.Line.{Line as LineOf};
ghost use Rattle.rv_gen.specs.Lines.{op_lines, ops_lines, with_one};
ghost use Rattle.lir_core.specs.Values.{word_of as word_of_value};
ghost use Rattle.lir_core.specs.declared.op.LirOp.{LirOp as LirOpOf};

use crate::calling::{
    DICTIONARY_AT, call, do_routine, get_item, go_to_routine, load_fixed, return_from,
};
use lir_core::{
    BinaryOperation, CheckedOperation, DivisionPart, LirBody, LirOp, Place, Test, UnaryOperation,
};
use num_core::{FixKind, Kind, List, Memory, Narrow, ShiftOp};
use rt_code::Routine;
use rv_isa::Register;
use rv_lines::computing::{
    change, combine, combine_checked, compare, condition_of, convert, convert_checked, divide,
    shift,
};
use rv_lines::line::{Condition, Line};
use rv_lines::moving::{clear, copy, load_place, move_word, store_place};
use rv_lines::operands::{
    get_address, load_constant, put_slot, read_slot, register_of, slot_place, write_slot, x,
};

/// The words of two slots in registers: their homes, or x5 and x6.
fn read_two(
    lines: &mut List<Line>,
    vars: &[u32],
    left: u32,
    right: u32,
) -> Result<(Register, Register), Memory>
    ensures lines { OnOk result (lines.new ≡ lines.old ++ (reads_slot (home_of vars.now left) 5 left
        ++ reads_slot (home_of vars.now right) 6 right)) }
    ensures registers { IfOk result (λ held. (held.0 ≡ register_or_of (home_of vars.now left) 5)
        × (held.1 ≡ register_or_of (home_of vars.now right) 6)) }
{
    read_slot(lines, vars, left, x(5))?;
    read_slot(lines, vars, right, x(6))?;
    Ok((
        register_of(vars, left, x(5)),
        register_of(vars, right, x(6)),
    ))
}

/// The word that holds a value.
fn word_of(value: i64) -> u64
    ensures { result ≡ word_of_value value }
{
    value.cast_unsigned()
}

/// A number.
fn constant(lines: &mut List<Line>, body: &LirBody, to: u32, value: i64) -> Result<(), Memory>
    ensures { OnOk result (lines.new ≡ lines.old ++ op_lines body.now (LirOpOf.Constant to value)) }
{
    let vars = body.vars.as_slice();
    let r = register_of(vars, to, x(7));
    load_constant(lines, r, word_of(value))?;
    write_slot(lines, vars, to, x(7))
}

/// The address of an item.
fn address(
    lines: &mut List<Line>,
    body: &LirBody,
    to: u32,
    kind: FixKind,
    item: u32,
) -> Result<(), Memory>
    ensures { OnOk result (lines.new ≡ lines.old ++ op_lines body.now (LirOpOf.Address to kind item)) }
{
    let vars = body.vars.as_slice();
    let r = register_of(vars, to, x(7));
    get_item(lines, r, kind, item)?;
    write_slot(lines, vars, to, x(7))
}

/// The address of a slot.
fn slot_address(lines: &mut List<Line>, body: &LirBody, to: u32, slot: u32) -> Result<(), Memory>
    ensures { OnOk result (lines.new ≡ lines.old ++ op_lines body.now (LirOpOf.SlotAddress to slot)) }
{
    let vars = body.vars.as_slice();
    let r = register_of(vars, to, x(7));
    get_address(lines, r, x(2), slot_place(slot))?;
    write_slot(lines, vars, to, x(7))
}

/// The dictionary of the frame.
fn dictionary(lines: &mut List<Line>, body: &LirBody, to: u32) -> Result<(), Memory>
    ensures { OnOk result (lines.new ≡ lines.old ++ op_lines body.now (LirOpOf.Dictionary to)) }
{
    let vars = body.vars.as_slice();
    let r = register_of(vars, to, x(7));
    lines.extend_from_slice(&[load_fixed(r, DICTIONARY_AT)])?;
    write_slot(lines, vars, to, x(7))
}

/// A number in memory.
fn load_number(
    lines: &mut List<Line>,
    body: &LirBody,
    to: u32,
    from: Place,
    narrow: Narrow,
) -> Result<(), Memory>
    ensures { OnOk result (lines.new ≡ lines.old ++ op_lines body.now (LirOpOf.Load to from narrow)) }
{
    let vars = body.vars.as_slice();
    let r = register_of(vars, to, x(7));
    load_place(lines, vars, narrow, r, from)?;
    write_slot(lines, vars, to, x(7))
}

/// A number to memory.
fn store_number(
    lines: &mut List<Line>,
    body: &LirBody,
    to: Place,
    from: u32,
    narrow: Narrow,
) -> Result<(), Memory>
    ensures { OnOk result (lines.new ≡ lines.old ++ op_lines body.now (LirOpOf.Store to from narrow)) }
{
    let vars = body.vars.as_slice();
    read_slot(lines, vars, from, x(6))?;
    store_place(lines, vars, narrow, register_of(vars, from, x(6)), to)
}

/// What two values give, wrapped.
fn binary(
    lines: &mut List<Line>,
    body: &LirBody,
    operation: BinaryOperation,
    kind: Kind,
    to: u32,
    left: u32,
    right: u32,
) -> Result<(), Memory>
    ensures { OnOk result (lines.new ≡ lines.old ++ op_lines body.now (LirOpOf.Binary operation kind to left right)) }
{
    let vars = body.vars.as_slice();
    let (a, b) = read_two(lines, vars, left, right)?;
    let r = register_of(vars, to, x(7));
    lines.extend_from_slice(&[Line::Single(combine(operation, kind, r, a, b))])?;
    write_slot(lines, vars, to, x(7))
}

/// What one value gives, wrapped.
fn unary(
    lines: &mut List<Line>,
    body: &LirBody,
    operation: UnaryOperation,
    kind: Kind,
    to: u32,
    value: u32,
) -> Result<(), Memory>
    ensures { OnOk result (lines.new ≡ lines.old ++ op_lines body.now (LirOpOf.Unary operation kind to value)) }
{
    let vars = body.vars.as_slice();
    read_slot(lines, vars, value, x(5))?;
    let a = register_of(vars, value, x(5));
    let r = register_of(vars, to, x(7));
    lines.extend_from_slice(&[Line::Single(change(operation, kind, r, a))])?;
    write_slot(lines, vars, to, x(7))
}

/// What two values give, or on to a label.
fn checked(
    lines: &mut List<Line>,
    body: &LirBody,
    operation: CheckedOperation,
    kind: Kind,
    to: u32,
    left: u32,
    right: u32,
    overflow: u32,
) -> Result<(), Memory>
    ensures { OnOk result (lines.new ≡ lines.old ++ op_lines body.now
        (LirOpOf.Checked operation kind to left right overflow)) }
{
    let vars = body.vars.as_slice();
    let (a, b) = read_two(lines, vars, left, right)?;
    combine_checked(lines, operation, kind, a, b, overflow)?;
    put_slot(lines, vars, to, x(7))
}

/// A part of a division, or on to a label.
fn division(
    lines: &mut List<Line>,
    body: &LirBody,
    part: DivisionPart,
    kind: Kind,
    to: u32,
    left: u32,
    right: u32,
    zero: u32,
    overflow: u32,
) -> Result<(), Memory>
    ensures { OnOk result (lines.new ≡ lines.old ++ op_lines body.now
        (LirOpOf.Divide part kind to left right zero overflow)) }
{
    let vars = body.vars.as_slice();
    let (a, b) = read_two(lines, vars, left, right)?;
    let r = register_of(vars, to, x(7));
    divide(lines, part, kind, r, a, b, zero, overflow)?;
    write_slot(lines, vars, to, x(7))
}

/// A value moved by the low bits of an amount.
fn shifted(
    lines: &mut List<Line>,
    body: &LirBody,
    operation: ShiftOp,
    kind: Kind,
    to: u32,
    value: u32,
    amount: u32,
) -> Result<(), Memory>
    ensures { OnOk result (lines.new ≡ lines.old ++ op_lines body.now (LirOpOf.Shift operation kind to value amount)) }
{
    let vars = body.vars.as_slice();
    let (a, b) = read_two(lines, vars, value, amount)?;
    let r = register_of(vars, to, x(7));
    lines.extend_from_slice(&[Line::Single(shift(operation, kind, r, a, b))])?;
    write_slot(lines, vars, to, x(7))
}

/// The low bits of a value, extended.
fn converted(
    lines: &mut List<Line>,
    body: &LirBody,
    narrow: Narrow,
    from: Kind,
    to: u32,
    value: u32,
) -> Result<(), Memory>
    ensures { OnOk result (lines.new ≡ lines.old ++ op_lines body.now (LirOpOf.Convert narrow from to value)) }
{
    let vars = body.vars.as_slice();
    read_slot(lines, vars, value, x(5))?;
    let a = register_of(vars, value, x(5));
    let r = register_of(vars, to, x(7));
    convert(lines, narrow, from, r, a)?;
    write_slot(lines, vars, to, x(7))
}

/// The same number as a value of a type, or on to a label.
fn converted_checked(
    lines: &mut List<Line>,
    body: &LirBody,
    narrow: Narrow,
    from: Kind,
    to: u32,
    value: u32,
    overflow: u32,
) -> Result<(), Memory>
    ensures { OnOk result (lines.new ≡ lines.old ++ op_lines body.now
        (LirOpOf.ConvertChecked narrow from to value overflow)) }
{
    let vars = body.vars.as_slice();
    read_slot(lines, vars, value, x(5))?;
    let a = register_of(vars, value, x(5));
    convert_checked(lines, narrow, from, a, overflow)?;
    put_slot(lines, vars, to, x(7))
}

/// 1 where a test holds of two values, and else 0.
fn comparison(
    lines: &mut List<Line>,
    body: &LirBody,
    test: Test,
    kind: Kind,
    to: u32,
    left: u32,
    right: u32,
) -> Result<(), Memory>
    ensures { OnOk result (lines.new ≡ lines.old ++ op_lines body.now (LirOpOf.Compare test kind to left right)) }
{
    let vars = body.vars.as_slice();
    let (a, b) = read_two(lines, vars, left, right)?;
    let r = register_of(vars, to, x(7));
    compare(lines, test, kind, r, a, b)?;
    write_slot(lines, vars, to, x(7))
}

/// On to a label where a test holds of two values.
fn branch(
    lines: &mut List<Line>,
    body: &LirBody,
    test: Test,
    kind: Kind,
    left: u32,
    right: u32,
    label: u32,
) -> Result<(), Memory>
    ensures { OnOk result (lines.new ≡ lines.old ++ op_lines body.now (LirOpOf.Branch test kind left right label)) }
{
    let vars = body.vars.as_slice();
    let (a, b) = read_two(lines, vars, left, right)?;
    lines.extend_from_slice(&[Line::Branch {
        condition: condition_of(test, kind),
        left: a,
        right: b,
        label,
    }])
}

/// On to a label where a word and 0 meet a condition.
fn branch_by_zero(
    lines: &mut List<Line>,
    body: &LirBody,
    condition: Condition,
    value: u32,
    label: u32,
) -> Result<(), Memory>
    ensures { OnOk result (lines.new ≡ lines.old ++ with_one body.now.vars value
        (λ a. LineOf.Branch condition a 0 label ∷ [])) }
{
    let vars = body.vars.as_slice();
    read_slot(lines, vars, value, x(5))?;
    let a = register_of(vars, value, x(5));
    lines.extend_from_slice(&[Line::Branch {
        condition,
        left: a,
        right: x(0),
        label,
    }])
}

/// The lines of an operation.
pub(crate) fn operation(lines: &mut List<Line>, body: &LirBody, op: &LirOp) -> Result<(), Memory>
    ensures { OnOk result (lines.new ≡ lines.old ++ op_lines body.now op.now) }
{
    match op {
        LirOp::Constant { to, value } => constant(lines, body, *to, *value),
        LirOp::Address { to, kind, item } => address(lines, body, *to, *kind, *item),
        LirOp::SlotAddress { to, slot } => slot_address(lines, body, *to, *slot),
        LirOp::Dictionary { to } => dictionary(lines, body, *to),
        LirOp::Move { to, from } => moved(lines, body, *to, *from),
        LirOp::Load { to, from, narrow } => load_number(lines, body, *to, *from, *narrow),
        LirOp::Store { to, from, narrow } => store_number(lines, body, *to, *from, *narrow),
        LirOp::Copy { to, from, bytes } => copy(lines, body.vars.as_slice(), *to, *from, *bytes),
        LirOp::Clear { to, bytes } => clear(lines, body.vars.as_slice(), *to, *bytes),
        LirOp::Binary {
            operation,
            kind,
            to,
            left,
            right,
        } => binary(lines, body, *operation, *kind, *to, *left, *right),
        LirOp::Unary {
            operation,
            kind,
            to,
            value,
        } => unary(lines, body, *operation, *kind, *to, *value),
        LirOp::Checked {
            operation,
            kind,
            to,
            left,
            right,
            overflow,
        } => checked(
            lines, body, *operation, *kind, *to, *left, *right, *overflow,
        ),
        LirOp::Divide {
            part,
            kind,
            to,
            left,
            right,
            zero,
            overflow,
        } => division(
            lines, body, *part, *kind, *to, *left, *right, *zero, *overflow,
        ),
        LirOp::Shift {
            operation,
            kind,
            to,
            value,
            amount,
        } => shifted(lines, body, *operation, *kind, *to, *value, *amount),
        LirOp::Convert {
            narrow,
            from,
            to,
            value,
        } => converted(lines, body, *narrow, *from, *to, *value),
        LirOp::ConvertChecked {
            narrow,
            from,
            to,
            value,
            overflow,
        } => converted_checked(lines, body, *narrow, *from, *to, *value, *overflow),
        LirOp::Compare {
            test,
            kind,
            to,
            left,
            right,
        } => comparison(lines, body, *test, *kind, *to, *left, *right),
        LirOp::Branch {
            test,
            kind,
            left,
            right,
            label,
        } => branch(lines, body, *test, *kind, *left, *right, *label),
        LirOp::BranchIfZero { value, label } => branch_by_zero(
            lines,
            body,
            Condition::Equal,
            *value,
            *label,
        ),
        LirOp::BranchUnlessZero { value, label } => branch_by_zero(
            lines,
            body,
            Condition::NotEqual,
            *value,
            *label,
        ),
        LirOp::Jump { label } | LirOp::Leave { label } => lines.extend_from_slice(&[Line::Jump {
            label: *label,
        }]),
        LirOp::Call {
            callee,
            dictionary,
            arguments,
            cleared,
            result,
        } => call(
            lines,
            body.vars.as_slice(),
            *callee,
            *dictionary,
            arguments.as_slice(),
            *cleared,
            *result,
        ),
        LirOp::Routine {
            number,
            arguments,
            result,
        } => do_routine(
            lines,
            body.vars.as_slice(),
            *number,
            arguments.as_slice(),
            *result,
        ),
        LirOp::Raise { .. } | LirOp::Rethrow | LirOp::EndHandler => {
            go_to_routine(lines, Routine::Unhandled)
        }
        LirOp::Return { result } => return_from(lines, body, *result),
    }
}

/// The lines of operations, each behind its label.
pub(crate) fn operations(lines: &mut List<Line>, body: &LirBody) -> Result<(), Memory>
    ensures { OnOk result (lines.new ≡ lines.old ++ ops_lines body.now body.now.ops) }
{
    for op in body.ops.as_slice() {
        lines.extend_from_slice(&[Line::Label])?;
        operation(lines, body, op)?;
    }
    Ok(())
}

/// The word of a slot in another.
fn moved(lines: &mut List<Line>, body: &LirBody, to: u32, from: u32) -> Result<(), Memory>
    ensures { OnOk result (lines.new ≡ lines.old ++ op_lines body.now (LirOpOf.Move to from)) }
{
    let vars = body.vars.as_slice();
    move_word(lines, vars, to, from)
}
