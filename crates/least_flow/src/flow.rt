ghost use Rattle.std.specs.Prelude.{◌≡◌, ℕ, ◌+◌, ◌<◌, ◌≤◌, All, Ok, true, false, IfOk, OnOk};
ghost use Rattle.least_flow.specs.Solution.{AreTold};

use num_core::Memory;
use std::alloc::Global;

/// Facts about numbered places: which are told from the start, and how each is passed on to other places.
pub trait Flow {
    /// What is known of a place that facts come to.
    type Fact: Drop;

    /// How many places there are. What is told of others is left aside.
    ghost places: { Self → ℕ };

    /// The first fact tells no more than the second.
    ghost is_below: { Self.Fact → Self.Fact → Type 0 };

    /// A fact is told of a place from the start.
    ghost starts: { Self → ℕ → Self.Fact → Type 0 };

    /// From a place of which this is known, a fact is passed on to a place.
    ghost passes: { Self → ℕ → Self.Fact → ℕ → Self.Fact → Type 0 };

    /// A fact can come to a place over a way of at most so many places, this one included.
    ghost is_within: { Self → ℕ → Self.Fact → Type 0 };

    /// How often a fact may have been raised.
    ghost rank: { Self → Self.Fact → ℕ };

    /// The highest rank of a fact that comes over a way of at most all places.
    ghost most: { Self → ℕ };

    /// How many places there are.
    fn places(&self) -> usize
        ensures { result ≡ places self.now };

    /// What is told from the start.
    fn starts(&self, alloc: Global) -> Result<Vec<(usize, Self::Fact)>, Memory>
        ensures told { IfOk result (λ facts. AreTold is_below (starts self.now) facts.items) }
        ensures within { IfOk result (λ facts. All (λ fact. is_within self.now 1 fact.1) facts.items) };

    /// What is passed on from a place of which this is known.
    fn pass(
        &self,
        alloc: Global,
        place: usize,
        known: &Self::Fact,
    ) -> Result<Vec<(usize, Self::Fact)>, Memory>
        requires place { place < places self.now }
        requires within { is_within self.now (places self.now) known.now }
        ensures told { IfOk result (λ facts. AreTold is_below (passes self.now place known.now) facts.items) }
        ensures within { IfOk result (λ facts. (n : ℕ) → is_within self.now n known.now →
            All (λ fact. is_within self.now (n + 1) fact.1) facts.items) };

    /// Makes a fact tell another one too, and no more than both. Whether it told less before; if not, it stays.
    fn join(&self, alloc: Global, known: &mut Self::Fact, more: Self::Fact) -> Result<bool, Memory>
        requires within { is_within self.now (places self.now) known.old }
        requires more_within { is_within self.now (places self.now + 1) more }
        ensures grows { OnOk result (is_below known.old known.new) }
        ensures told { OnOk result (is_below more known.new) }
        ensures least { OnOk result ((other : Self.Fact) →
            is_below known.old other → is_below more other → is_below known.new other) }
        ensures joined { OnOk result ((m n : ℕ) →
            is_within self.now m known.old → is_within self.now n more → is_within self.now m known.new) }
        ensures same { result ≡ Ok false → known.new ≡ known.old }
        ensures higher { result ≡ Ok true → rank self.now known.old < rank self.now known.new };

    ghost reflexive: { (a : Self.Fact) → is_below a a };

    ghost transitive: { (a b c : Self.Fact) → is_below a b → is_below b c → is_below a c };

    /// From a place of which more is known, no less is passed on.
    ghost monotone: { (flow : Self) (place : ℕ) (a b : Self.Fact) (to : ℕ) (fact : Self.Fact) →
        is_below a b → passes flow place a to fact →
        (more : Self.Fact) × passes flow place b to more × is_below fact more };

    ghost widens: { (flow : Self) (m n : ℕ) (a : Self.Fact) → m ≤ n → is_within flow m a → is_within flow n a };

    ghost bounded: { (flow : Self) (a : Self.Fact) → is_within flow (places flow) a → rank flow a ≤ most flow };
}
