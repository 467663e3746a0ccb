//! The pool over items that own memory, and over items without size.
use crate::RawPool;
use std::test::Fail;

#[test]
fn items_stay_at_their_places(rt: HostRuntime) -> Result<(), Fail> {
    let mut pool = RawPool::new(rt.alloc());
    for number in 0..100u32 {
        let text = format!(in rt.alloc(); "item {number}")?;
        let place = pool.push(text).ok().ok_or("memory")?;
        assert_eq!(rt; place, number as usize);
    }
    assert_eq!(rt; pool.len(), 100);
    assert_eq!(rt; pool.get(0).as_str(), "item 0");
    assert_eq!(rt; pool.get(63).as_str(), "item 63");
    pool.get_mut(64).push_str("!")?;
    assert_eq!(rt; pool.get(64).as_str(), "item 64!");
    assert_eq!(rt; pool.get(99).as_str(), "item 99");
    Ok(())
}

#[test]
fn items_without_size_are_counted(rt: HostRuntime) {
    let mut pool = RawPool::new(rt.alloc());
    for _ in 0..1000 {
        assert!(rt; pool.push(()).is_ok());
    }
    assert_eq!(rt; pool.len(), 1000);
}
