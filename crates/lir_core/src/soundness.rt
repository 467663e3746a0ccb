ghost use Rattle.std.specs.Prelude.{◌≡◌, ◌++◌, ◌==◌, map, nat_le, nat_lt, length};
ghost use Rattle.std.specs.List.{list_all, list_any};
ghost use Rattle.lir_core.specs.Pieces.{bytes_of_type, words_from as words_of, word as word_of, at_place as piece_at};
ghost use Rattle.lir_core.specs.Frame.{most_passed};
ghost use Rattle.lir_core.specs.Pieces.{touched, addressed, labels, of_argument, passed, word_if, of_callee};
ghost use Rattle.lir_core.specs.Check.{lies_in_frame, is_whole_or_apart, fits, are_distinct, can_be_addressed};
ghost use Rattle.lir_core.specs.Check.{has_short_numbers, has_short_offset, is_short as is_short_number};
ghost use Rattle.lir_core.specs.Check.{is_sound, is_sound_op, ops_are_sound, marks_are_places, vars_are_slots};
ghost use Rattle.lir_core.specs.declared.op.LirOp.TheVariants as LirOp;

use crate::body::{FIXED_BYTES, LirBody, MOST_PASSED};
use crate::op::{Argument, Block, Callee, LirOp, Place};
use num_core::Narrow;

/// A part of the slots of a frame: so many bytes from one on, counted from slot 0.
#[derive(Clone, Copy, Debug, PartialEq, Eq)]
pub(crate) struct Piece {
    from: u64,
    bytes: u64,
}

/// Whether labels, slots and the places of `marks` are in range, routines get no more words than they may take, offsets
/// and counts of bytes have 32 bits, and each slot of `vars` stands there once and is read and written as one whole
/// word only.
pub fn check(body: &LirBody) -> bool
    ensures sound { result ≡ is_sound body.now }
{
    body.ops_are_sound() && body.marks_are_places() && body.vars_are_slots()
}

impl LirBody {
    /// Whether each operation keeps what the body wants of it.
    fn ops_are_sound(&self) -> bool
        ensures { result ≡ ops_are_sound self.now }
    {
        self.ops.as_slice().iter().all(|op| self.allows(op))
    }

    /// Whether each mark stands at an operation.
    fn marks_are_places(&self) -> bool
        ensures { result ≡ marks_are_places self.now }
    {
        let count = self.ops.len();
        self.marks
            .as_slice()
            .iter()
            .all(|mark| (mark.0 as usize) < count)
    }

    /// Whether each variable lies in the frame, and stands in `vars` once.
    fn vars_are_slots(&self) -> bool
        ensures { result ≡ vars_are_slots self.now }
    {
        self.vars_are_held() && are_distinct(self.vars.as_slice())
    }

    /// Whether each variable lies in the frame.
    fn vars_are_held(&self) -> bool
        ensures { result ≡ list_all (λ slot. lies_in_frame self.now.frame (word_of slot)) self.now.vars }
    {
        self.vars
            .as_slice()
            .iter()
            .all(|slot| self.holds(word(*slot)))
    }

    /// Whether the piece lies among the slots of the frame.
    fn holds(&self, piece: Piece) -> bool
        ensures { result ≡ lies_in_frame self.now.frame piece }
    {
        u128::from(FIXED_BYTES) + u128::from(piece.from) + u128::from(piece.bytes)
            <= u128::from(self.frame)
    }

    /// Whether each variable is in the piece as a whole word or not at all.
    fn vars_are_whole(&self, piece: Piece) -> bool
        ensures { result ≡ list_all (is_whole_or_apart piece) self.now.vars }
    {
        self.vars
            .as_slice()
            .iter()
            .all(|slot| is_whole_or_apart(piece, *slot))
    }

    /// Whether the piece lies in the frame, and has no variable in part.
    fn fits(&self, piece: Piece) -> bool
        ensures { result ≡ fits self.now piece }
    {
        self.holds(piece) && self.vars_are_whole(piece)
    }

    /// Whether each of the pieces does.
    fn all_fit(&self, pieces: &[Piece]) -> bool
        ensures { result ≡ list_all (fits self.now) pieces.now }
    {
        pieces.iter().all(|piece| self.fits(*piece))
    }

    /// Whether the words of a call's arguments do.
    fn arguments_fit(&self, arguments: &[Argument]) -> bool
        ensures { result ≡ list_all (λ argument. fits self.now (of_argument argument)) arguments.now }
    {
        arguments.iter().all(|argument| self.fits(words_from(argument.from, argument.words)))
    }

    /// Whether the words of these slots do.
    fn slots_fit(&self, slots: &[u32]) -> bool
        ensures { result ≡ list_all (λ slot. fits self.now (word_of slot)) slots.now }
    {
        slots.iter().all(|slot| self.fits(word(*slot)))
    }

    /// Whether the word of the slot does, if there is one.
    fn slot_fits(&self, slot: &Option<u32>) -> bool
        ensures { result ≡ list_all (fits self.now) (word_if slot.now) }
    {
        match slot {
            Some(slot) => self.fits(word(*slot)),
            None => true,
        }
    }

    /// Whether the slot that has the address of the callee does, if one has.
    fn callee_fits(&self, callee: &Callee) -> bool
        ensures { result ≡ list_all (fits self.now) (of_callee callee.now) }
    {
        match callee {
            Callee::Body(_) => true,
            Callee::Through(slot) => self.fits(word(*slot)),
        }
    }

    /// Whether the slot's address may be taken: it lies in the frame, and is no variable.
    fn can_be_addressed(&self, slot: u32) -> bool
        ensures { result ≡ can_be_addressed self.now slot }
    {
        self.holds(word(slot)) && !has(self.vars.as_slice(), slot)
    }

    /// Whether the operation keeps what the body wants of it.
    fn allows(&self, op: &LirOp) -> bool
        ensures { result ≡ is_sound_op self.now op.now }
    {
        self.touched_fit(op)
            && self.addressed_can_be(op)
            && self.labels_are_places(op)
            && passes_few(op)
            && has_short_numbers(op)
    }

    /// Whether the parts of the frame that the operation reads and writes fit.
    fn touched_fit(&self, op: &LirOp) -> bool
        ensures { result ≡ list_all (fits self.now) (touched op.now) }
    {
        match op {
            LirOp::Constant { to, .. }
            | LirOp::Address { to, .. }
            | LirOp::SlotAddress { to, .. }
            | LirOp::Dictionary { to } => self.all_fit(&[word(*to)]),
            LirOp::Move { to, from } => self.all_fit(&[word(*to), word(*from)]),
            LirOp::Load { to, from, narrow } => {
                self.all_fit(&[word(*to), from.piece(size_of(*narrow))])
            }
            LirOp::Store { to, from, narrow } => {
                self.all_fit(&[to.piece(size_of(*narrow)), word(*from)])
            }
            LirOp::Copy { to, from, bytes } => self.all_fit(&[
                to.piece(*bytes),
                from.piece(*bytes),
            ]),
            LirOp::Clear { to, bytes } => self.all_fit(&[to.piece(*bytes)]),
            LirOp::Binary {
                to,
                left,
                right,
                ..
            }
            | LirOp::Checked {
                to,
                left,
                right,
                ..
            }
            | LirOp::Divide {
                to,
                left,
                right,
                ..
            }
            | LirOp::Compare {
                to,
                left,
                right,
                ..
            } => { self.all_fit(&[word(*to), word(*left), word(*right)]) }
            LirOp::Shift {
                to,
                value,
                amount,
                ..
            } => { self.all_fit(&[word(*to), word(*value), word(*amount)]) }
            LirOp::Unary { to, value, .. }
            | LirOp::Convert { to, value, .. }
            | LirOp::ConvertChecked { to, value, .. } => self.all_fit(&[word(*to), word(*value)]),
            LirOp::Branch { left, right, .. } => self.all_fit(&[word(*left), word(*right)]),
            LirOp::BranchIfZero { value, .. } | LirOp::BranchUnlessZero { value, .. } => {
                self.all_fit(&[word(*value)])
            }
            LirOp::Call {
                callee,
                dictionary,
                arguments,
                cleared,
                result,
            } => { self.call_fits(callee, dictionary, arguments.as_slice(), *cleared, *result) }
            LirOp::Routine {
                arguments,
                result,
                ..
            } => { self.routine_fits(arguments.as_slice(), result) }
            LirOp::Raise { object } => self.all_fit(&[word(*object)]),
            LirOp::Return { result } => self.all_fit(&[words_from(result.slot, result.words)]),
            LirOp::Jump { .. } | LirOp::Rethrow | LirOp::Leave { .. } | LirOp::EndHandler => true,
        }
    }

    /// Whether what a call reads and writes of the frame fits.
    fn call_fits(
        &self,
        callee: &Callee,
        dictionary: &Option<u32>,
        arguments: &[Argument],
        cleared: Block,
        gives: Block,
    ) -> bool
        ensures { result ≡ list_all (fits self.now)
            (touched (LirOp.Call callee.now dictionary.now arguments.now cleared gives)) }
    {
        self.fits(words_from(gives.slot, gives.words))
            && (self.fits(words_from(cleared.slot, cleared.words))
                && self.read_by_call_fits(callee, dictionary, arguments))
    }

    /// Whether what it reads does.
    #[tactic(auto, using(crate::proofs::Fitting::of_two))]
    fn read_by_call_fits(
        &self,
        callee: &Callee,
        dictionary: &Option<u32>,
        arguments: &[Argument],
    ) -> bool
        ensures { result ≡ list_all (fits self.now)
            (of_callee callee.now ++ (word_if dictionary.now ++ map of_argument arguments.now)) }
    {
        self.callee_fits(callee) && self.given_fits(dictionary, arguments)
    }

    /// Whether what it gives the callee does.
    #[tactic(auto, using(crate::proofs::Fitting::of_given))]
    fn given_fits(&self, dictionary: &Option<u32>, arguments: &[Argument]) -> bool
        ensures { result ≡ list_all (fits self.now)
            (word_if dictionary.now ++ map of_argument arguments.now) }
    {
        self.slot_fits(dictionary) && self.arguments_fit(arguments)
    }

    /// Whether what the call of a routine reads and writes of the frame fits.
    #[tactic(auto, using(crate::proofs::Fitting::of_routine))]
    fn routine_fits(&self, arguments: &[u32], gives: &Option<u32>) -> bool
        ensures { result ≡ list_all (fits self.now) (word_if gives.now ++ map word_of arguments.now) }
    {
        self.slot_fits(gives) && self.slots_fit(arguments)
    }

    /// Whether each slot whose address the operation takes may be addressed.
    fn addressed_can_be(&self, op: &LirOp) -> bool
        ensures { result ≡ list_all (can_be_addressed self.now) (addressed op.now) }
    {
        match op {
            LirOp::SlotAddress { slot, .. } => self.can_be_addressed(*slot),
            LirOp::Constant { .. }
            | LirOp::Address { .. }
            | LirOp::Dictionary { .. }
            | LirOp::Move { .. }
            | LirOp::Load { .. }
            | LirOp::Store { .. }
            | LirOp::Copy { .. }
            | LirOp::Clear { .. }
            | LirOp::Binary { .. }
            | LirOp::Unary { .. }
            | LirOp::Checked { .. }
            | LirOp::Divide { .. }
            | LirOp::Shift { .. }
            | LirOp::Convert { .. }
            | LirOp::ConvertChecked { .. }
            | LirOp::Compare { .. }
            | LirOp::Branch { .. }
            | LirOp::BranchIfZero { .. }
            | LirOp::BranchUnlessZero { .. }
            | LirOp::Jump { .. }
            | LirOp::Call { .. }
            | LirOp::Routine { .. }
            | LirOp::Raise { .. }
            | LirOp::Rethrow
            | LirOp::Leave { .. }
            | LirOp::EndHandler
            | LirOp::Return { .. } => true,
        }
    }

    /// Whether the labels of the operation are places of operations.
    fn labels_are_places(&self, op: &LirOp) -> bool
        ensures { result ≡ list_all (λ label. nat_lt label (length self.now.ops)) (labels op.now) }
    {
        match op {
            LirOp::Divide { zero, overflow, .. } => self.is_place(*zero)
                && self.is_place(*overflow),
            LirOp::Checked { overflow, .. } | LirOp::ConvertChecked { overflow, .. } =>
                self.is_place(*overflow),
            LirOp::Branch { label, .. }
            | LirOp::BranchIfZero { label, .. }
            | LirOp::BranchUnlessZero { label, .. }
            | LirOp::Jump { label }
            | LirOp::Leave { label } => self.is_place(*label),
            LirOp::Constant { .. }
            | LirOp::Address { .. }
            | LirOp::SlotAddress { .. }
            | LirOp::Dictionary { .. }
            | LirOp::Move { .. }
            | LirOp::Load { .. }
            | LirOp::Store { .. }
            | LirOp::Copy { .. }
            | LirOp::Clear { .. }
            | LirOp::Binary { .. }
            | LirOp::Unary { .. }
            | LirOp::Shift { .. }
            | LirOp::Convert { .. }
            | LirOp::Compare { .. }
            | LirOp::Call { .. }
            | LirOp::Routine { .. }
            | LirOp::Raise { .. }
            | LirOp::Rethrow
            | LirOp::EndHandler
            | LirOp::Return { .. } => true,
        }
    }

    /// Whether an operation stands at the place.
    fn is_place(&self, place: u32) -> bool
        ensures { result ≡ nat_lt place (length self.now.ops) }
    {
        (place as usize) < self.ops.len()
    }
}

impl Place {
    /// What is read or written of the frame for so many bytes at the place.
    fn piece(self, bytes: u32) -> Piece
        ensures { result ≡ piece_at self bytes }
    {
        match self {
            Place::Slot { slot, offset } => Piece {
                from: 8 * u64::from(slot) + u64::from(offset),
                bytes: u64::from(bytes),
            },
            Place::Flat { base, .. } => word(base),
        }
    }

    /// Whether the place lies behind an address by a number of 32 bits, if it lies behind one.
    fn has_short_offset(self) -> bool
        ensures { result ≡ has_short_offset self }
    {
        match self {
            Place::Slot { .. } => true,
            Place::Flat { offset, .. } => is_short(offset),
        }
    }
}

/// Whether a number has 32 bits.
fn is_short(number: u32) -> bool
    ensures { result ≡ is_short_number number }
{
    u64::from(number) < 1 << 32
}

/// Whether the numbers that stand in the operation beside its slots have 32 bits.
fn has_short_numbers(op: &LirOp) -> bool
    ensures { result ≡ has_short_numbers op.now }
{
    match op {
        LirOp::Load { from, .. } => from.has_short_offset(),
        LirOp::Store { to, .. } => to.has_short_offset(),
        LirOp::Copy { to, from, bytes } => {
            to.has_short_offset() && from.has_short_offset() && is_short(*bytes)
        }
        LirOp::Clear { to, bytes } => to.has_short_offset() && is_short(*bytes),
        LirOp::Constant { .. }
        | LirOp::Address { .. }
        | LirOp::SlotAddress { .. }
        | LirOp::Dictionary { .. }
        | LirOp::Move { .. }
        | LirOp::Binary { .. }
        | LirOp::Unary { .. }
        | LirOp::Checked { .. }
        | LirOp::Divide { .. }
        | LirOp::Shift { .. }
        | LirOp::Convert { .. }
        | LirOp::ConvertChecked { .. }
        | LirOp::Compare { .. }
        | LirOp::Branch { .. }
        | LirOp::BranchIfZero { .. }
        | LirOp::BranchUnlessZero { .. }
        | LirOp::Jump { .. }
        | LirOp::Call { .. }
        | LirOp::Routine { .. }
        | LirOp::Raise { .. }
        | LirOp::Rethrow
        | LirOp::Leave { .. }
        | LirOp::EndHandler
        | LirOp::Return { .. } => true,
    }
}

/// So many words from a slot on.
fn words_from(slot: u32, words: u32) -> Piece
    ensures { result ≡ words_of slot words }
{
    Piece {
        from: 8 * u64::from(slot),
        bytes: 8 * u64::from(words),
    }
}

/// The word of a slot.
fn word(slot: u32) -> Piece
    ensures { result ≡ word_of slot }
{
    words_from(slot, 1)
}

/// Whether the operation passes no more words to a routine than it may take.
fn passes_few(op: &LirOp) -> bool
    ensures { result ≡ nat_le (length (passed op.now)) most_passed }
{
    match op {
        LirOp::Routine { arguments, .. } => arguments.len() <= MOST_PASSED,
        LirOp::Constant { .. }
        | LirOp::Address { .. }
        | LirOp::SlotAddress { .. }
        | LirOp::Dictionary { .. }
        | LirOp::Move { .. }
        | LirOp::Load { .. }
        | LirOp::Store { .. }
        | LirOp::Copy { .. }
        | LirOp::Clear { .. }
        | LirOp::Binary { .. }
        | LirOp::Unary { .. }
        | LirOp::Checked { .. }
        | LirOp::Divide { .. }
        | LirOp::Shift { .. }
        | LirOp::Convert { .. }
        | LirOp::ConvertChecked { .. }
        | LirOp::Compare { .. }
        | LirOp::Branch { .. }
        | LirOp::BranchIfZero { .. }
        | LirOp::BranchUnlessZero { .. }
        | LirOp::Jump { .. }
        | LirOp::Call { .. }
        | LirOp::Raise { .. }
        | LirOp::Rethrow
        | LirOp::Leave { .. }
        | LirOp::EndHandler
        | LirOp::Return { .. } => true,
    }
}

/// How many bytes a number of the type has in memory.
fn size_of(narrow: Narrow) -> u32
    ensures { result ≡ bytes_of_type narrow }
{
    match narrow {
        Narrow::I1 | Narrow::U1 => 1,
        Narrow::I2 | Narrow::U2 => 2,
        Narrow::I4 | Narrow::U4 => 4,
        Narrow::I8 | Narrow::U8 => 8,
    }
}

/// Whether the piece is the whole word of the slot, or no byte of it.
fn is_whole_or_apart(piece: Piece, slot: u32) -> bool
    ensures { result ≡ is_whole_or_apart piece slot }
{
    let begin = 8 * u128::from(slot);
    let from = u128::from(piece.from);
    let end = from + u128::from(piece.bytes);
    (from == begin && piece.bytes == 8) || end <= begin || begin + 8 <= from
}

/// Whether the slot is one of these.
fn has(slots: &[u32], slot: u32) -> bool
    ensures { result ≡ list_any (λ other. other == slot) slots.now }
{
    slots.iter().any(|other| *other == slot)
}

/// Whether no two of the slots are equal.
fn are_distinct(slots: &[u32]) -> bool
    ensures { result ≡ are_distinct slots.now }
{
    match slots.split_first() {
        Some((first, rest)) => !has(rest, *first) && are_distinct(rest),
        None => true,
    }
}
