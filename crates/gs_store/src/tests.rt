use crate::{MOST_NAMED, Store};
use std::test::Fail;

#[test]
fn items_are_named_by_their_numbers(rt: HostRuntime) -> Result<(), Fail> {
    let mut store = Store::new(rt.alloc())?;
    assert_eq!(rt; store.get(1), None);
    store.put(7_u32)?;
    store.put(9)?;
    assert_eq!(rt; store.count(), 2);
    assert_eq!(rt; store.get(0), None);
    assert_eq!(rt; store.get(1), Some(&7));
    assert_eq!(rt; store.get(2), Some(&9));
    assert_eq!(rt; store.get(3), None);
    Ok(())
}

#[test]
fn the_last_can_be_named(rt: HostRuntime) -> Result<(), Fail> {
    let mut store = Store::new(rt.alloc())?;
    for item in 1..=MOST_NAMED as u64 + 2 {
        store.put(item)?;
    }
    assert_eq!(rt; store.count(), 65_538);
    assert_eq!(rt; store.get(2), None);
    assert_eq!(rt; store.get(3), Some(&3));
    assert_eq!(rt; store.get(40_000), Some(&40_000));
    assert_eq!(rt; store.get(65_538), Some(&65_538));
    assert_eq!(rt; store.get(65_539), None);
    assert_eq!(rt; store.get(u64::MAX), None);
    Ok(())
}
