//! The table of Out.
use crate::out_table;
use rv_model::Public;
use std::test::Fail;

#[test]
fn final_values_in_limbs(rt: HostRuntime) -> Result<(), Fail> {
    let mut output = [0; 256];
    output[0] = 3;
    output[12] = 5;
    let table = out_table(rt.alloc(), &Public { exit: 7, output })?;
    assert_eq!(&rt; table.air, 6);
    assert_eq!(&rt; table.columns.len(), 2);
    let columns = table.columns.as_slice();
    let low = columns[0].as_slice();
    let high = columns[1].as_slice();
    assert_eq!(&rt; low.len(), 64);
    assert_eq!(&rt; high.len(), 64);
    assert_eq!(&rt; low[0], 7);
    assert_eq!(&rt; low[1], 3);
    assert_eq!(&rt; low[2], 0);
    assert_eq!(&rt; high[1], 0);
    assert_eq!(&rt; high[2], 5);
    Ok(())
}
