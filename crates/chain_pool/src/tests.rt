//! Three values behind two lists.
use crate::Pool;
use std::test::Fail;

#[test]
fn three_appends(rt: HostRuntime) -> Result<(), Fail> {
    let mut pool = Pool::new(rt.alloc());
    pool.append(5, 1u32)?;
    pool.append(7, 2)?;
    pool.append(5, 3)?;
    assert_eq!(&rt; pool.keys()?.as_slice(), [5, 7].as_slice());
    let mut walk = pool.walk(5);
    assert_eq!(&rt; walk.next(), Some(1));
    assert_eq!(&rt; walk.next(), Some(3));
    assert_eq!(&rt; walk.next(), None);
    pool.clear(5);
    assert_eq!(&rt; pool.walk(5).next(), None);
    let mut walk = pool.walk(7);
    assert_eq!(&rt; walk.next(), Some(2));
    assert_eq!(&rt; walk.next(), None);
    assert_eq!(&rt; pool.keys()?.as_slice(), [7].as_slice());
    Ok(())
}
