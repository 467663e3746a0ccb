//! What the analysis asks of rules.
use num_core::{List, Memory};
use std::alloc::Global;
use std::fmt::Debug;

/// A node that a row gives, with the number of the row's rule.
#[derive(Debug, Drop)]
pub struct Need<N> {
    pub node: N,
    pub rule: u8,
}

/// Rules over nodes of one type. A row gives a node by a rule from one node or from two, and the node is needed as soon
/// as those are kept.
pub trait Rules {
    ghost use Rattle.std.specs.Prelude.{◌≡◌, ◌↔◌, ℕ, Bool, IfOk, Contains, true};
    ghost use Rattle.std.specs.declared.cmp.Ordering.TheVariants.{Equal};

    /// The nodes that the rules speak of.
    type Node: Ord + Debug + Drop;

    /// A node is one of these rules' own.
    ghost is_own: { Self → Self.Node → Type 0 };

    /// A node is a root.
    ghost is_root: { Self → Self.Node → Type 0 };

    /// The first node gives the second by a rule.
    ghost gives: { Self → Self.Node → Self.Node → ℕ → Type 0 };

    /// The first node awaits the second: once both are kept, they give the third by a rule.
    ghost awaits: { Self → Self.Node → Self.Node → Self.Node → ℕ → Type 0 };

    /// The first node and the second meet: once both are kept, they give the third by a rule. The two are found by a
    /// search among the kept nodes.
    ghost meets_in: { Self → Self.Node → Self.Node → Self.Node → ℕ → Type 0 };

    /// A node may be the first of two that meet.
    ghost can_seek: { Self → Self.Node → Bool };

    /// A node may be the second of two that meet.
    ghost can_be_sought: { Self → Self.Node → Bool };

    /// The depth of a node.
    ghost depth_of: { Self → Self.Node → ℕ };

    /// A node equal to this one.
    fn copy(&self, alloc: Global, node: &Self::Node) -> Result<Self::Node, Memory>
        requires { is_own self.now node.now }
        ensures { IfOk result (λ copied. copied ≡ node.now) };

    /// The roots.
    fn roots(&self, alloc: Global) -> Result<List<Self::Node>, Memory>
        ensures { IfOk result (λ roots. (n : Self.Node) → Contains roots n ↔ is_root self.now n) };

    /// What a node gives by itself.
    fn always(&self, alloc: Global, node: &Self::Node) -> Result<List<Need<Self::Node>>, Memory>
        requires { is_own self.now node.now }
        ensures { IfOk result (λ needs. (n : Self.Node) (rule : ℕ) →
            Contains needs (record { node = n; rule = rule }) ↔ gives self.now node.now n rule) };

    /// What a node gives once another is kept, with that other.
    fn awaiting(
        &self,
        alloc: Global,
        node: &Self::Node,
    ) -> Result<List<(Self::Node, Need<Self::Node>)>, Memory>
        requires { is_own self.now node.now }
        ensures { IfOk result (λ rows. (b n : Self.Node) (rule : ℕ) →
            Contains rows (b, record { node = n; rule = rule }) ↔ awaits self.now node.now b n rule) };

    /// What two nodes give where they meet.
    fn meets(
        &self,
        alloc: Global,
        a: &Self::Node,
        b: &Self::Node,
    ) -> Result<List<Need<Self::Node>>, Memory>
        requires a { is_own self.now a.now }
        requires b { is_own self.now b.now }
        ensures { IfOk result (λ needs. (n : Self.Node) (rule : ℕ) →
            Contains needs (record { node = n; rule = rule }) ↔ meets_in self.now a.now b.now n rule) };

    /// Whether a node may be the first of two that meet. `meets` is asked of a node that may be the first and one that
    /// may be the second, and of no others.
    fn seeks(&self, node: &Self::Node) -> bool
        requires { is_own self.now node.now }
        ensures { result ≡ can_seek self.now node.now };

    /// Whether a node may be the second of two that meet.
    fn is_sought(&self, node: &Self::Node) -> bool
        requires { is_own self.now node.now }
        ensures { result ≡ can_be_sought self.now node.now };

    /// The depth of a node.
    fn depth(&self, node: &Self::Node) -> u32
        requires { is_own self.now node.now }
        ensures { result ≡ depth_of self.now node.now };

    /// Nodes that compare equal are one node.
    ghost one_node: { (x y : Self.Node) → Self.Node.cmp x y ≡ Equal → x ≡ y };

    /// The roots are own.
    ghost own_roots: { (rules : Self) (n : Self.Node) → is_root rules n → is_own rules n };

    /// What an own node gives is own.
    ghost own_gives: { (rules : Self) (a n : Self.Node) (rule : ℕ) →
        is_own rules a → gives rules a n rule → is_own rules n };

    /// What an own node gives once another own node is kept is own.
    ghost own_awaits: { (rules : Self) (a b n : Self.Node) (rule : ℕ) →
        is_own rules a → is_own rules b → awaits rules a b n rule → is_own rules n };

    /// What two own nodes give where they meet is own.
    ghost own_meets: { (rules : Self) (a b n : Self.Node) (rule : ℕ) →
        is_own rules a → is_own rules b → meets_in rules a b n rule → is_own rules n };

    /// Only nodes that may be the first and the second meet.
    ghost sought_meets: { (rules : Self) (a b n : Self.Node) (rule : ℕ) →
        meets_in rules a b n rule → (can_seek rules a ≡ true) × (can_be_sought rules b ≡ true) };
}
