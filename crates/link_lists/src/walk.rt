//! The places of a chain, one by one.
ghost use Rattle.std.specs.Prelude.{◌≡◌};
ghost use Rattle.std.specs.Iterator.{YieldsFirst, item_count};

use crate::chain::link_at;
use crate::link::Linked;
use raw_pool::RawPool;
use std::marker::Model;

/// The places of a chain that are left, in order. Contracts see them as a list.
#[derive(Drop)]
pub struct Walk<'a, T: Linked<K>, const K: usize> {
    pub(crate) pool: &'a RawPool<T>,
    pub(crate) next: Option<u32>,
}

impl<'a, T: Linked<K>, const K: usize> Model for Walk<'a, T, K> {
    ghost use Rattle.std.specs.Prelude.{ℕ, List, map, length};

    ghost Value = { List ℕ };

    ghost use Rattle.link_lists.specs.Chains.{followed, IsFollowed};

    ghost view = { λ walk. followed (map T.link_of walk.pool.now) (length (map T.link_of walk.pool.now)) walk.next };

    ghost invariant = { λ walk. IsFollowed (map T.link_of walk.pool.now) walk.next };
}

impl<'a, T: Linked<K>, const K: usize> Iterator for Walk<'a, T, K> {
    type Item = u32;

    ghost next_gives = { YieldsFirst (λ rest. rest) };

    ghost remaining = { item_count (λ rest. rest) };

    fn next(&mut self) -> Option<u32> {
        let at = self.next?;
        self.next = link_at(self.pool, at).after;
        Some(at)
    }
}
