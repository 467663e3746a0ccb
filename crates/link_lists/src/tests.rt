//! Two chains through the same five records.
ghost use Rattle.std.specs.Prelude.{◌≡◌, ◌<◌, ◌∷◌, [], ◌++◌, length, map, false, IfSome, IsTrue};
ghost use Rattle.link_lists.specs.Links.{link_at};
ghost use Rattle.link_lists.specs.Chains.{places, IsSound};

use crate::{Chain, Link, Linked};
use raw_pool::RawPool;
use std::alloc::Global;
use std::process::Abort;

#[derive(Drop)]
struct Record {
    one: Link,
    two: Link,
}

impl Linked<1> for Record {
    ghost use Rattle.link_lists.specs.Links.{free};
    ghost use Rattle.std.specs.Prelude.{◌≡◌};

    ghost link_of = { λ r. r.one };

    ghost rest = { λ r. record r { one = free } };

    fn link(&self) -> Link {
        self.one
    }

    fn set_link(&mut self, to: Link) {
        self.one = to;
    }

    ghost whole = { λ x y link rest i. record { one = link i; two = (rest i).two } };
}

impl Linked<2> for Record {
    ghost use Rattle.link_lists.specs.Links.{free};

    ghost link_of = { λ r. r.two };

    ghost rest = { λ r. record r { two = free } };

    fn link(&self) -> Link {
        self.two
    }

    fn set_link(&mut self, to: Link) {
        self.two = to;
    }

    ghost whole = { λ x y link rest i. record { one = (rest i).one; two = link i } };
}

fn records(alloc: Global) -> Option<RawPool<Record>> {
    let mut pool = RawPool::new(alloc);
    for _ in 0..5 {
        let record = Record {
            one: Link::free(),
            two: Link::free(),
        };
        pool.push(record).ok()?;
    }
    Some(pool)
}

fn link_at<T: Linked<K>, const K: usize>(pool: &RawPool<T>, at: u32) -> Link
    requires { at < length pool.now }
    ensures { result ≡ link_at (map T.link_of pool.now) at }
{
    pool.get(at as usize).link()
}

fn is_free<T: Linked<K>, const K: usize>(pool: &RawPool<T>, at: u32) -> bool
    ensures { IsTrue result → (at < length pool.now) × ((link_at (map T.link_of pool.now) at).held ≡ false) }
{
    (at as usize) < pool.len() && !link_at(pool, at).held
}

fn push<T: Linked<K>, const K: usize>(pool: &mut RawPool<T>, chain: &mut Chain<K>, at: u32) -> bool
    requires { IsSound chain.old (map T.link_of pool.old) }
    ensures sound { IsSound chain.new (map T.link_of pool.new) }
    ensures places { IsTrue result → places chain.new (map T.link_of pool.new) ≡ places chain.old (map T.link_of
        pool.old) ++ at ∷ [] }
{
    let free = is_free(pool, at);
    if free {
        chain.push_back(pool, at);
    }
    free
}

fn all_five(pool: &mut RawPool<Record>) -> Option<Chain<1>>
    ensures { IfSome result (λ chain. IsSound chain (map ⟦<Record as Linked<1>>⟧.link_of pool.new)
        × (places chain (map ⟦<Record as Linked<1>>⟧.link_of pool.new) ≡ 0 ∷ 1 ∷ 2 ∷ 3 ∷ 4 ∷ [])) }
{
    let mut chain = Chain::new();
    if !push(pool, &mut chain, 0)
        || !push(pool, &mut chain, 1)
        || !push(pool, &mut chain, 2)
        || !push(pool, &mut chain, 3)
        || !push(pool, &mut chain, 4)
    {
        return None;
    }
    Some(chain)
}

fn goes<T: Linked<K>, const K: usize>(pool: &RawPool<T>, chain: &Chain<K>, over: &[u32]) -> bool
    requires { IsSound chain.now (map T.link_of pool.now) }
{
    chain.walk(pool).eq(over.iter().copied())
}

fn second_links(alloc: Global, pool: &RawPool<Record>) -> Option<Vec<Link>> {
    let mut links = Vec::new(alloc);
    for at in 0..pool.len() {
        if at < pool.len() {
            links.push(pool.get(at).two).ok()?;
        }
    }
    Some(links)
}

#[test]
fn places_leave_and_come_back(rt: HostRuntime) {
    let mut pool = records(rt.alloc()).expect(&rt, "memory");
    let mut second: Chain<2> = Chain::new();
    assert!(rt; push(&mut pool, &mut second, 4));
    assert!(rt; push(&mut pool, &mut second, 2));
    let links = second_links(rt.alloc(), &pool).expect(&rt, "memory");
    let mut none: Chain<1> = Chain::new();
    assert!(rt; none.pop_front(&mut pool).is_none());
    let mut chain = all_five(&mut pool).expect(&rt, "no record is held");
    chain.unlink(&mut pool, 2);
    assert!(rt; chain.pop_front(&mut pool) == Some(0));
    assert!(rt; goes(&pool, &chain, &[1, 3, 4]));
    assert!(rt; push(&mut pool, &mut chain, 2));
    assert!(rt; goes(&pool, &chain, &[1, 3, 4, 2]));
    assert!(rt; second_links(rt.alloc(), &pool).expect(&rt, "memory") == links);
}
