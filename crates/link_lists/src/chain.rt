//! A chain through the items of a pool.
ghost use Rattle.std.specs.Prelude.{◌≡◌, ◌<◌, ◌∷◌, [], ◌++◌, List, length, map, slice_set, false, IfSome, MatchOption};
ghost use Rattle.link_lists.specs.Links.{end_of, free, link_at, with_after, with_before};

use crate::link::{Link, Linked};
use crate::walk::Walk;
use raw_pool::RawPool;

/// A chain of the links with the number K: its first and its last place. The items in it lie in a pool.
#[derive(Clone, Copy, Debug, PartialEq, Eq)]
pub struct Chain<const K: usize> {
    pub first: Option<u32>,
    pub last: Option<u32>,
}

/// The link at a place.
pub(crate) fn link_at<T: Linked<K>, const K: usize>(pool: &RawPool<T>, at: u32) -> Link
    requires { at < length pool.now }
    ensures { result ≡ link_at (map T.link_of pool.now) at }
{
    pool.get(at as usize).link()
}

/// Writes the link at a place.
fn set_link_at<T: Linked<K>, const K: usize>(pool: &mut RawPool<T>, at: u32, to: Link)
    requires { at < length pool.old }
    ensures links { map T.link_of pool.new ≡ slice_set (map T.link_of pool.old) at to }
    ensures rests { map T.rest pool.new ≡ map T.rest pool.old }
{
    let item = pool.get_mut(at as usize);
    item.set_link(to);
}

/// Lets the item at `before`, if there is one, name what comes after it.
fn join_after<T: Linked<K>, const K: usize>(
    pool: &mut RawPool<T>,
    before: Option<u32>,
    after: Option<u32>,
)
    requires { IfSome before (λ at. at < length pool.old) }
    ensures links { map T.link_of pool.new ≡ with_after (map T.link_of pool.old) before after }
    ensures rests { map T.rest pool.new ≡ map T.rest pool.old }
{
    if let Some(at) = before {
        let link = link_at(pool, at);
        set_link_at(pool, at, Link { after, ..link });
    }
}

/// Lets the item at `after`, if there is one, name what comes before it.
fn join_before<T: Linked<K>, const K: usize>(
    pool: &mut RawPool<T>,
    before: Option<u32>,
    after: Option<u32>,
)
    requires { IfSome after (λ at. at < length pool.old) }
    ensures links { map T.link_of pool.new ≡ with_before (map T.link_of pool.old) before after }
    ensures rests { map T.rest pool.new ≡ map T.rest pool.old }
{
    if let Some(at) = after {
        let link = link_at(pool, at);
        set_link_at(pool, at, Link { before, ..link });
    }
}

/// The end of a chain behind a place taken out.
fn end_of(outwards: Option<u32>, inwards: Option<u32>, end: Option<u32>) -> Option<u32>
    ensures { result ≡ end_of outwards inwards end }
{
    match outwards {
        None => inwards,
        Some(_) => end,
    }
}

impl<const K: usize> Chain<K> {
    ghost use Rattle.link_lists.specs.declared.link.Link.{Link};
    ghost use Rattle.link_lists.specs.Chains.{places, without, IsAmong, IsSound, AreSame, KeepsOthers};

    /// The chain without items.
    pub fn new() -> Chain<K>
        ensures empty { (links : List Link) → places result links ≡ [] }
        ensures sound { (links : List Link) → IsSound result links }
    {
        Chain {
            first: None,
            last: None,
        }
    }

    /// Adds the item at a place at the end.
    pub fn push_back<T: Linked<K>>(&mut self, pool: &mut RawPool<T>, at: u32)
        requires sound { IsSound self.old (map T.link_of pool.old) }
        requires free { (at < length pool.old) × ((link_at (map T.link_of pool.old) at).held ≡ false) }
        ensures places { places self.new (map T.link_of pool.new) ≡ places self.old (map T.link_of pool.old) ++ at
            ∷ [] }
        ensures sound { IsSound self.new (map T.link_of pool.new) }
        ensures rests { map T.rest pool.new ≡ map T.rest pool.old }
        ensures links { AreSame (map T.link_of pool.old) (map T.link_of pool.new)
            (places self.old (map T.link_of pool.old) ++ at ∷ []) }
        ensures others { KeepsOthers K (map T.link_of pool.old) (map T.link_of pool.new) (places self.old (map T.link_of
            pool.old) ++ at ∷ []) }
    {
        set_link_at(
            pool,
            at,
            Link {
                before: self.last,
                after: None,
                held: true,
            },
        );
        join_after(pool, self.last, Some(at));
        self.first = self.first.or(Some(at));
        self.last = Some(at);
    }

    /// Takes the first place out, if there is one.
    pub fn pop_front<T: Linked<K>>(&mut self, pool: &mut RawPool<T>) -> Option<u32>
        requires { IsSound self.old (map T.link_of pool.old) }
        ensures places { MatchOption result (places self.old (map T.link_of pool.old) ≡ []) (λ at. places self.old (map
            T.link_of pool.old) ≡ at ∷ places self.new (map T.link_of pool.new)) }
        ensures sound { IsSound self.new (map T.link_of pool.new) }
        ensures freed { IfSome result (λ at. link_at (map T.link_of pool.new) at ≡ free) }
        ensures rests { map T.rest pool.new ≡ map T.rest pool.old }
        ensures links { AreSame (map T.link_of pool.old) (map T.link_of pool.new) (places self.old (map T.link_of
            pool.old)) }
        ensures others { KeepsOthers K (map T.link_of pool.old) (map T.link_of pool.new) (places self.old (map T.link_of
            pool.old)) }
    {
        let at = self.first?;
        self.unlink(pool, at);
        Some(at)
    }

    /// Takes a place out.
    pub fn unlink<T: Linked<K>>(&mut self, pool: &mut RawPool<T>, at: u32)
        requires sound { IsSound self.old (map T.link_of pool.old) }
        requires within { IsAmong at (places self.old (map T.link_of pool.old)) }
        ensures places { places self.new (map T.link_of pool.new) ≡ without at (places self.old (map T.link_of
            pool.old)) }
        ensures sound { IsSound self.new (map T.link_of pool.new) }
        ensures freed { link_at (map T.link_of pool.new) at ≡ free }
        ensures rests { map T.rest pool.new ≡ map T.rest pool.old }
        ensures links { AreSame (map T.link_of pool.old) (map T.link_of pool.new) (places self.old (map T.link_of
            pool.old)) }
        ensures others { KeepsOthers K (map T.link_of pool.old) (map T.link_of pool.new) (places self.old (map T.link_of
            pool.old)) }
    {
        let link = link_at(pool, at);
        join_after(pool, link.before, link.after);
        join_before(pool, link.before, link.after);
        set_link_at(pool, at, Link::free());
        self.first = end_of(link.before, link.after, self.first);
        self.last = end_of(link.after, link.before, self.last);
    }

    /// Goes over the places in order.
    pub fn walk<'a, T: Linked<K>>(&'a self, pool: &'a RawPool<T>) -> Walk<'a, T, K>
        requires { IsSound self.now (map T.link_of pool.now) }
        ensures { result ≡ places self.now (map T.link_of pool.now) }
    {
        Walk {
            pool,
            next: self.first,
        }
    }
}
