ghost use Rattle.std.specs.Prelude.{◌≡◌, ◌++◌, ◌<◌, ◌≤◌, ℕ, All, length, map, OnOk, IfOk, IsTrue};
ghost use Rattle.num_core.specs.Bits.{low_bits};
ghost use Rattle.rv_isa.specs.Instructions.{IsLegal, word_of};
ghost use Rattle.rv_gen.specs.Placing.{are_close as are_close_of, branch as branch_of, branch_code, code_from};
ghost use Rattle.rv_gen.specs.Placing.{distance as distance_of, far_places as far_places_of, fix_at, fixes_from};
ghost use Rattle.rv_gen.specs.Placing.{jump_code, jumps_far, label_at, line_code, longest as longest_of};
ghost use Rattle.rv_gen.specs.Placing.{opposite as opposite_of, place_in as place_in_of, places_from};
ghost use Rattle.rv_gen.specs.Placing.{size as size_of, branch_limit, code_in, fixes_in, jump_limit, places_in};
ghost use Rattle.rv_gen.specs.Placing.{rows_by};
ghost use Rattle.rv_gen.specs.Near.{IsInStep};

use crate::selection::Code;
use num_core::{Fix, List, Memory};
use rv_isa::{BranchOffset, Immediate, Ins, JumpOffset, Register, encode};
use rv_lines::line::{Condition, Line};
use rv_lines::operands::{lower, upper, x};
use std::alloc::Global;

/// Fewer instructions than a branch and a jump can reach.
const BRANCH_LIMIT: u32 = 1000;

const JUMP_LIMIT: u32 = 250_000;

/// How many instructions a line is in its longest form.
fn longest(line: &Line) -> u32
    ensures value { result ≡ longest_of line.now }
    ensures bound { result ≤ 3 }
{
    match line {
        Line::Label => 0,
        Line::Single(_) => 1,
        Line::Addressed { .. } | Line::Jump { .. } => 2,
        Line::Branch { .. } => 3,
    }
}

/// The place of a line goes to those of the labels, if it is one.
fn mark(places: &mut List<u32>, line: &Line, at: u32) -> Result<(), Memory>
    ensures { OnOk result (places.new ≡ places.old ++ label_at line.now at) }
{
    match line {
        Line::Label => places.extend_from_slice(&[at]),
        Line::Single(_) | Line::Addressed { .. } | Line::Branch { .. } | Line::Jump { .. } => Ok(
            (),
        ),
    }
}

/// The places of the labels where each line takes its longest form.
fn far_places(alloc: Global, lines: &[Line]) -> Result<List<u32>, Memory>
    requires few { length lines.now ≤ 134217728 }
    ensures { IfOk result (λ places. places ≡ far_places_of 0 lines.now) }
{
    let mut places = List::new(alloc);
    let mut at = 0;
    for line in lines {
        mark(&mut places, line, at)?;
        at += longest(line);
    }
    Ok(places)
}

/// The place of a label.
fn place_in(places: &[u32], label: u32) -> u32
    ensures { result ≡ place_in_of places.now label }
{
    match places.get(label as usize) {
        Some(place) => *place,
        None => 0,
    }
}

/// Whether two places lie fewer instructions apart than so many.
fn are_close(limit: u32, from: u32, to: u32) -> bool
    ensures { result ≡ are_close_of limit from to }
{
    u64::from(from) < u64::from(to) + u64::from(limit)
        && u64::from(to) < u64::from(from) + u64::from(limit)
}

/// How many instructions a line is at a place of the longest form.
fn size(far: &[u32], at: u32, line: &Line) -> u32
    ensures value { result ≡ size_of far.now at line.now }
    ensures bound { result ≤ 3 }
{
    match line {
        Line::Label => 0,
        Line::Single(_) => 1,
        Line::Addressed { .. } => 2,
        Line::Branch { label, .. } => {
            if are_close(BRANCH_LIMIT, at, place_in(far, *label)) {
                1
            } else {
                3
            }
        }
        Line::Jump { label } => {
            if are_close(JUMP_LIMIT, at, place_in(far, *label)) {
                1
            } else {
                2
            }
        }
    }
}

/// The places of the labels.
fn places(alloc: Global, far: &[u32], lines: &[Line]) -> Result<List<u32>, Memory>
    requires few { length lines.now ≤ 134217728 }
    ensures { IfOk result (λ places. places ≡ places_from far.now 0 0 lines.now) }
{
    let mut places = List::new(alloc);
    let mut far_at = 0;
    let mut at = 0;
    for line in lines {
        mark(&mut places, line, at)?;
        at += size(far, far_at, line);
        far_at += longest(line);
    }
    Ok(places)
}

/// How many bytes lie from one place to another.
fn distance(from: u32, to: u32) -> i64
    ensures { result ≡ distance_of from to }
{
    4 * i64::from(to) - 4 * i64::from(from)
}

/// A branch.
fn branch(condition: Condition, rs1: Register, rs2: Register, imm: BranchOffset) -> Ins
    ensures { result ≡ branch_of condition rs1 rs2 imm }
{
    match condition {
        Condition::Equal => Ins::Beq { rs1, rs2, imm },
        Condition::NotEqual => Ins::Bne { rs1, rs2, imm },
        Condition::Less => Ins::Blt { rs1, rs2, imm },
        Condition::NotLess => Ins::Bge { rs1, rs2, imm },
        Condition::LessUnsigned => Ins::Bltu { rs1, rs2, imm },
        Condition::NotLessUnsigned => Ins::Bgeu { rs1, rs2, imm },
    }
}

/// The condition that holds where another doesn't.
fn opposite(condition: Condition) -> Condition
    ensures { result ≡ opposite_of condition }
{
    match condition {
        Condition::Equal => Condition::NotEqual,
        Condition::NotEqual => Condition::Equal,
        Condition::Less => Condition::NotLess,
        Condition::NotLess => Condition::Less,
        Condition::LessUnsigned => Condition::NotLessUnsigned,
        Condition::NotLessUnsigned => Condition::LessUnsigned,
    }
}

/// A jump as far as may be.
fn jump_far(code: &mut List<Ins>, from: u32, to: u32) -> Result<(), Memory>
    requires from { from < 536870912 }
    requires to { to < 536870912 }
    ensures { OnOk result (code.new ≡ code.old ++ jumps_far from to) }
{
    let bits = low_word(distance(from, to));
    code.extend_from_slice(&[
        Ins::Auipc {
            rd: x(5),
            imm: upper(bits),
        },
        Ins::Jalr {
            rd: x(0),
            rs1: x(5),
            imm: lower(bits),
        },
    ])
}

/// The lowest 32 bits of a number.
fn low_word(number: i64) -> u32
    ensures { result ≡ low_bits 32 number }
{
    (number.cast_unsigned() % (1 << 32)) as u32
}

/// How far a place lies from another that is close.
fn branch_distance(from: u32, to: u32) -> BranchOffset
    requires close { IsTrue (are_close_of branch_limit from to) }
    ensures { result ≡ distance_of from to }
{
    BranchOffset::of(distance(from, to) as i16)
}

/// A branch at a place to another, which lies close, or by way of a jump.
fn branch_to(
    code: &mut List<Ins>,
    close: bool,
    condition: Condition,
    left: Register,
    right: Register,
    from: u32,
    to: u32,
) -> Result<(), Memory>
    requires from { from < 536870911 }
    requires to { to < 536870912 }
    requires close { IsTrue close → IsTrue (are_close_of branch_limit from to) }
    ensures { OnOk result (code.new ≡ code.old ++ branch_code close condition left right from to) }
{
    if close {
        let near = branch_distance(from, to);
        return code.extend_from_slice(&[branch(condition, left, right, near)]);
    }
    let over = BranchOffset::of(12);
    code.extend_from_slice(&[branch(opposite(condition), left, right, over)])?;
    jump_far(code, from + 1, to)
}

/// A jump at a place to another, which lies close, or by way of x5.
fn jump_to(code: &mut List<Ins>, close: bool, from: u32, to: u32) -> Result<(), Memory>
    requires from { from < 536870911 }
    requires to { to < 536870912 }
    requires close { IsTrue close → IsTrue (are_close_of jump_limit from to) }
    ensures { OnOk result (code.new ≡ code.old ++ jump_code close from to) }
{
    if close {
        return code.extend_from_slice(&[Ins::Jal {
            rd: x(0),
            imm: JumpOffset::of(distance(from, to) as i32),
        }]);
    }
    jump_far(code, from, to)
}

/// The instructions of a line at its two places.
fn place_line(
    code: &mut List<Ins>,
    far: &[u32],
    places: &[u32],
    far_at: u32,
    at: u32,
    line: &Line,
) -> Result<(), Memory>
    requires at { at < 536870911 }
    requires low { (label : ℕ) → place_in_of places.now label < 536870912 }
    requires in_step { (label : ℕ) → IsInStep far_at at (place_in_of far.now label) (place_in_of places.now label) }
    ensures { OnOk result (code.new ≡ code.old ++ line_code far.now places.now far_at at line.now) }
{
    match line {
        Line::Label => Ok(()),
        Line::Single(ins) => code.extend_from_slice(&[*ins]),
        Line::Addressed { upper, lower, .. } => code.extend_from_slice(&[*upper, *lower]),
        Line::Branch {
            condition,
            left,
            right,
            label,
        } => {
            let close = are_close(BRANCH_LIMIT, far_at, place_in(far, *label));
            let to = place_in(places, *label);
            branch_to(code, close, *condition, *left, *right, at, to)
        }
        Line::Jump { label } => {
            let close = are_close(JUMP_LIMIT, far_at, place_in(far, *label));
            jump_to(code, close, at, place_in(places, *label))
        }
    }
}

/// The instructions of lines.
fn code(alloc: Global, far: &[u32], places: &[u32], lines: &[Line]) -> Result<List<Ins>, Memory>
    requires few { length lines.now ≤ 134217728 }
    requires far { far.now ≡ far_places_of 0 lines.now }
    requires places { places.now ≡ places_from far.now 0 0 lines.now }
    ensures { IfOk result (λ code. code ≡ code_from far.now places.now 0 0 lines.now) }
{
    let mut code = List::new(alloc);
    let mut far_at = 0;
    let mut at = 0;
    for line in lines {
        place_line(&mut code, far, places, far_at, at, line)?;
        at += size(far, far_at, line);
        far_at += longest(line);
    }
    Ok(code)
}

/// The fix of a line at a place, if it takes an address.
fn fix(fixes: &mut List<Fix>, line: &Line, at: u32) -> Result<(), Memory>
    ensures { OnOk result (fixes.new ≡ fixes.old ++ fix_at at line.now) }
{
    match line {
        Line::Addressed { kind, item, .. } => fixes.extend_from_slice(&[Fix {
            at,
            kind: *kind,
            item: *item,
        }]),
        Line::Label | Line::Single(_) | Line::Branch { .. } | Line::Jump { .. } => Ok(()),
    }
}

/// The fixes of lines.
fn fixes(alloc: Global, far: &[u32], lines: &[Line]) -> Result<List<Fix>, Memory>
    requires few { length lines.now ≤ 134217728 }
    ensures { IfOk result (λ fixes. fixes ≡ fixes_from far.now 0 0 lines.now) }
{
    let mut fixes = List::new(alloc);
    let mut far_at = 0;
    let mut at = 0;
    for line in lines {
        fix(&mut fixes, line, at)?;
        at += size(far, far_at, line);
        far_at += longest(line);
    }
    Ok(fixes)
}

/// The words of instructions.
fn encoded(alloc: Global, code: &[Ins]) -> Result<List<u32>, Memory>
    ensures words { IfOk result (λ words. words ≡ map word_of code.now) }
    ensures legal { OnOk result (All IsLegal code.now) }
{
    let mut words = List::new(alloc);
    for ins in code {
        words.extend_from_slice(&[encode(ins)])?;
    }
    Ok(words)
}

/// The places of marks, each with its offset.
#[tactic(auto, unfolding(crate::specs::Placing::rows_by))]
fn mapped(alloc: Global, places: &[u32], marks: &[(u32, u32)]) -> Result<List<(u32, u32)>, Memory>
    ensures { IfOk result (λ rows. rows ≡ rows_by places.now marks.now) }
{
    let mut rows = List::new(alloc);
    for mark in marks {
        rows.extend_from_slice(&[(place_in(places, mark.0), mark.1)])?;
    }
    Ok(rows)
}

/// The instructions of lines, by the places of their labels.
pub(crate) fn place_code(
    alloc: Global,
    lines: &[Line],
    marks: &[(u32, u32)],
) -> Result<Code, Memory>
    requires few { length lines.now ≤ 134217728 }
    ensures words { IfOk result (λ code. code.words ≡ map word_of (code_in lines.now)) }
    ensures fixes { IfOk result (λ code. code.fixes ≡ fixes_in lines.now) }
    ensures map { IfOk result (λ code. code.map ≡ rows_by (places_in lines.now) marks.now) }
    ensures legal { OnOk result (All IsLegal (code_in lines.now)) }
{
    let far = far_places(alloc, lines)?;
    let at = places(alloc, far.as_slice(), lines)?;
    let code = code(alloc, far.as_slice(), at.as_slice(), lines)?;
    Ok(Code {
        words: encoded(alloc, code.as_slice())?,
        fixes: fixes(alloc, far.as_slice(), lines)?,
        map: mapped(alloc, at.as_slice(), marks)?,
    })
}
