ghost use Rattle.std.specs.Prelude.{◌≡◌, ◌-◌, if◌then◌else◌};
ghost use Rattle.il_verify.specs.Ranges.{begins_range as begins_range_of, ends_finally as ends_finally_of, goes_well};
ghost use Rattle.il_verify.specs.Ranges.{handler_range, has_kind, holds as holds_of, innermost as innermost_of};
ghost use Rattle.il_verify.specs.Ranges.{is_catch_kind, is_finally_kind, is_in_catch as is_in_catch_of};
ghost use Rattle.il_verify.specs.Ranges.{is_in_handler as is_in_handler_of, is_in_range as is_in_range_of, is_try_role};
ghost use Rattle.il_verify.specs.Ranges.{leaves_well, may_go as may_go_of, may_leave as may_leave_of, or_smaller};
ghost use Rattle.il_verify.specs.Ranges.{smaller, try_range};

use il_code::{Clause, ClauseKind};

/// What a range of a clause is for (ECMA-335 I.12.4.2).
#[derive(Clone, Copy, Debug, PartialEq, Eq)]
pub enum Role {
    Try,
    Handler(ClauseKind),
}

/// The offsets from one on, and up to another.
#[derive(Clone, Copy, Debug, PartialEq, Eq)]
pub struct Range {
    pub begin: u32,
    pub end: u32,
    pub role: Role,
}

impl Range {
    /// The range that a clause guards.
    fn of_try(clause: Clause) -> Range
        ensures { result ≡ try_range clause }
    {
        Range {
            begin: clause.try_at,
            end: clause.try_end,
            role: Role::Try,
        }
    }

    /// The range of a clause's handler.
    fn of_handler(clause: Clause) -> Range
        ensures { result ≡ handler_range clause }
    {
        Range {
            begin: clause.handler_at,
            end: clause.handler_end,
            role: Role::Handler(clause.kind),
        }
    }

    /// Whether the range holds an offset.
    fn holds(self, offset: u32) -> bool
        ensures { result ≡ holds_of offset self }
    {
        self.begin <= offset && offset < self.end
    }

    /// How many offsets it holds.
    fn size(self) -> u32
        ensures { result ≡ self.end - self.begin }
    {
        self.end.saturating_sub(self.begin)
    }

    /// The other range, where it is smaller.
    fn or_smaller(self, other: Range) -> Range
        ensures { result ≡ smaller self other }
    {
        if other.size() < self.size() {
            other
        } else {
            self
        }
    }

    /// Whether it is what a clause guards.
    fn is_try(self) -> bool
        ensures { result ≡ is_try_role self.role }
    {
        match self.role {
            Role::Try => true,
            Role::Handler(_) => false,
        }
    }

    /// Whether it is the handler of a finally or a fault.
    fn is_finally(self) -> bool
        ensures { result ≡ has_kind is_finally_kind self.role }
    {
        match self.role {
            Role::Handler(ClauseKind::Finally) | Role::Handler(ClauseKind::Fault) => true,
            Role::Handler(ClauseKind::Catch) | Role::Handler(ClauseKind::Filter) | Role::Try =>
                false,
        }
    }

    /// Whether it is the handler of a catch.
    fn is_catch(self) -> bool
        ensures { result ≡ has_kind is_catch_kind self.role }
    {
        match self.role {
            Role::Handler(ClauseKind::Catch) => true,
            Role::Handler(ClauseKind::Finally)
            | Role::Handler(ClauseKind::Fault)
            | Role::Handler(ClauseKind::Filter)
            | Role::Try => false,
        }
    }

    /// Whether control may go from an offset to another otherwise than by `leave`, as far as this range tells.
    fn goes_well(self, from: u32, to: u32) -> bool
        ensures { result ≡ goes_well from to self }
    {
        if self.holds(from) {
            self.holds(to)
        } else {
            !self.holds(to) || (self.is_try() && self.begin == to)
        }
    }

    /// Whether it may by `leave`, as far as this range tells.
    fn leaves_well(self, from: u32, to: u32) -> bool
        ensures { result ≡ leaves_well from to self }
    {
        if self.holds(from) {
            self.holds(to) || !self.is_finally()
        } else {
            !self.holds(to) || (self.is_try() && self.begin == to)
        }
    }
}

/// Whether control may go from an offset to another otherwise than by `leave`: it stays in each range that it is in,
/// and comes into a try range at its begin alone (ECMA-335 I.12.4.2.8).
pub fn may_go(clauses: &[Clause], from: u32, to: u32) -> bool
    ensures { result ≡ may_go_of clauses.now from to }
{
    for clause in clauses {
        if !Range::of_try(*clause).goes_well(from, to) {
            return false;
        }
        if !Range::of_handler(*clause).goes_well(from, to) {
            return false;
        }
    }
    true
}

/// Whether control may go from an offset to another by `leave`: out of no finally or fault handler, into no handler,
/// and into a try range at its begin alone (ECMA-335 III.3.46).
pub fn may_leave(clauses: &[Clause], from: u32, to: u32) -> bool
    ensures { result ≡ may_leave_of clauses.now from to }
{
    for clause in clauses {
        if !Range::of_try(*clause).leaves_well(from, to) {
            return false;
        }
        if !Range::of_handler(*clause).leaves_well(from, to) {
            return false;
        }
    }
    true
}

/// Whether an offset begins a range of a clause.
pub fn begins_range(clauses: &[Clause], offset: u32) -> bool
    ensures { result ≡ begins_range_of clauses.now offset }
{
    for clause in clauses {
        if clause.try_at == offset || clause.handler_at == offset {
            return true;
        }
    }
    false
}

/// Whether an offset is in a handler.
pub fn is_in_handler(clauses: &[Clause], offset: u32) -> bool
    ensures { result ≡ is_in_handler_of clauses.now offset }
{
    for clause in clauses {
        if Range::of_handler(*clause).holds(offset) {
            return true;
        }
    }
    false
}

/// Whether an offset is in the handler of a catch.
pub fn is_in_catch(clauses: &[Clause], offset: u32) -> bool
    ensures { result ≡ is_in_catch_of clauses.now offset }
{
    for clause in clauses {
        let handler = Range::of_handler(*clause);
        if handler.holds(offset) && handler.is_catch() {
            return true;
        }
    }
    false
}

/// Whether an offset is in a range of a clause.
pub fn is_in_range(clauses: &[Clause], offset: u32) -> bool
    ensures { result ≡ is_in_range_of clauses.now offset }
{
    for clause in clauses {
        if Range::of_try(*clause).holds(offset) || Range::of_handler(*clause).holds(offset) {
            return true;
        }
    }
    false
}

/// A range, where it holds an offset and what was found isn't smaller, or else what was found.
fn closer(range: Range, offset: u32, found: Option<Range>) -> Option<Range>
    ensures { result ≡ (if holds_of offset range then or_smaller range found else found) }
{
    if !range.holds(offset) {
        return found;
    }
    match found {
        Some(other) => Some(range.or_smaller(other)),
        None => Some(range),
    }
}

/// The innermost range that holds an offset: ranges nest, so it is the smallest, and of equal ones the first.
fn innermost(clauses: &[Clause], offset: u32) -> Option<Range>
    ensures { result ≡ innermost_of clauses.now offset }
{
    let mut found = None;
    let mut left = clauses.len();
    while left > 0 {
        left -= 1;
        let clause = clauses[left];
        found = closer(Range::of_handler(clause), offset, found);
        found = closer(Range::of_try(clause), offset, found);
    }
    found
}

/// Whether the innermost range that holds an offset is the handler of a finally or a fault.
pub fn ends_finally(clauses: &[Clause], offset: u32) -> bool
    ensures { result ≡ ends_finally_of clauses.now offset }
{
    match innermost(clauses, offset) {
        Some(range) => range.is_finally(),
        None => false,
    }
}
