//! Laws of chains, for the proofs of the crates above. Each function does nothing, and ensures its laws of all values.
ghost use Rattle.std.specs.Prelude.{◌≡◌, ℕ, List, [], ◌∷◌, ◌++◌};
ghost use Rattle.link_lists.specs.declared.link.Link.{Link};
ghost use Rattle.link_lists.specs.declared.chain.Chain.{Chain};
ghost use Rattle.link_lists.specs.Chains.{places, IsSound};

/// A chain stays as it is where its pool gets one more item.
pub fn chains_in_a_growing_pool()
    ensures sound { (K : ℕ) (chain : Chain K) (links : List Link) (link : Link) → IsSound chain links →
        IsSound chain (links ++ link ∷ []) }
    ensures places { (K : ℕ) (chain : Chain K) (links : List Link) (link : Link) → IsSound chain links →
        places chain (links ++ link ∷ []) ≡ places chain links }
{}
