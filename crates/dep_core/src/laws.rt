//! Laws of derivations, of derivable and of closed nodes over any rules, as clauses of functions that do nothing.
ghost use Rattle.std.specs.Prelude.{◌↔◌, ◌≤◌, ℕ, List, All, Contains, length};
ghost use Rattle.dep_core.specs.Kept.{IsDerivation, IsDerivable, IsClosed, row_by};
ghost use Rattle.dep_core.specs.Marks.{NodesPass, DepthPasses, NonePassed};

use crate::rules::Rules;

/// Every closed list holds the derivable nodes, and a closed derivation holds no others. So all closed derivations hold
/// the same nodes, in whatever order they were found.
pub fn closed_derivations_hold_the_derivable<R: Rules>(_rules: &R)
    ensures closed { let root = R.is_root _rules.now in
        let row = row_by (R.gives _rules.now) (R.awaits _rules.now) (R.meets_in _rules.now) in
        (ns : List R.Node) (n : R.Node) → IsClosed root row ns → IsDerivable root row n → Contains ns n }
    ensures exact { let root = R.is_root _rules.now in
        let row = row_by (R.gives _rules.now) (R.awaits _rules.now) (R.meets_in _rules.now) in
        (ns : List R.Node) (n : R.Node) → IsDerivation root row ns → IsClosed root row ns
        → (Contains ns n ↔ IsDerivable root row n) }
    ensures one { let root = R.is_root _rules.now in
        let row = row_by (R.gives _rules.now) (R.awaits _rules.now) (R.meets_in _rules.now) in
        (ns ms : List R.Node) (n : R.Node) → IsDerivation root row ns → IsClosed root row ns
        → IsDerivation root row ms → IsClosed root row ms → Contains ns n → Contains ms n }
{}

/// A closed derivation within the limits shows that no derivation passes them, and where a fault tells of a limit, some
/// does. So whether a limit is passed doesn't depend on the order in which the nodes are found.
pub fn limits_pass_in_every_order_or_in_none<R: Rules>(_rules: &R)
    ensures none { let root = R.is_root _rules.now in
        let row = row_by (R.gives _rules.now) (R.awaits _rules.now) (R.meets_in _rules.now) in
        (ns : List R.Node) (nodes depth : ℕ) → IsDerivation root row ns → IsClosed root row ns
        → All (λ n. R.depth_of _rules.now n ≤ depth) ns → length ns ≤ nodes
        → NonePassed root row (R.depth_of _rules.now) nodes depth }
    ensures nodes { let root = R.is_root _rules.now in
        let row = row_by (R.gives _rules.now) (R.awaits _rules.now) (R.meets_in _rules.now) in
        (nodes depth : ℕ) → NodesPass root row (R.depth_of _rules.now) nodes depth
        → ¬ NonePassed root row (R.depth_of _rules.now) nodes depth }
    ensures depth { let root = R.is_root _rules.now in
        let row = row_by (R.gives _rules.now) (R.awaits _rules.now) (R.meets_in _rules.now) in
        (nodes depth : ℕ) (n : R.Node) → DepthPasses root row (R.depth_of _rules.now) nodes depth n
        → ¬ NonePassed root row (R.depth_of _rules.now) nodes depth }
{}
