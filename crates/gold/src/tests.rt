//! Sums and products at the field's edges, and a table by hand.
use super::*;
use std::test::*;

fn element(v: u64) -> Result<Fe, Fail> {
    Ok(Fe::from_u64(v).ok_or("below p")?)
}

#[test]
fn edges(rt: HostRuntime) -> Result<(), Fail> {
    let last = element(18446744069414584320)?;
    assert_eq!(rt; Fe::from_u64(18446744069414584321), None);
    assert_eq!(rt; last.add(Fe::ONE), Fe::ZERO);
    assert_eq!(rt; Fe::ZERO.sub(Fe::ONE), last);
    assert_eq!(rt; Fe::ONE.neg(), last);
    assert_eq!(rt; Fe::ZERO.neg(), Fe::ZERO);
    assert_eq!(rt; last.mul(last), Fe::ONE);
    assert_eq!(rt; Fe::new(7).value(), 7);
    Ok(())
}

#[test]
fn powers_of_two(rt: HostRuntime) -> Result<(), Fail> {
    let half = element(4294967296)?;
    // 2^64 is 2^32 - 1, and 2^96 is -1.
    assert_eq!(rt; half.mul(half), Fe::from(4294967295));
    assert_eq!(rt; half.mul(half).mul(half), Fe::ONE.neg());
    Ok(())
}

#[test]
fn halves_of_a_number(rt: HostRuntime) {
    assert_eq!(rt; limbs(0x0123_4567_89ab_cdef), (0x89ab_cdef, 0x0123_4567));
    assert_eq!(rt; join_limbs(0x89ab_cdef, 0x0123_4567), 0x0123_4567_89ab_cdef);
}

#[test]
fn wide_main(rt: HostRuntime) {
    let main = AirShape {
        rows: 4096,
        columns: 37,
        most: 1_048_576,
    };
    let wide = AirShape {
        rows: 16_384,
        columns: 37,
        most: 262_144,
    };
    assert_eq!(rt; main.widened(), wide);
    assert!(rt; Form::One.is_machine() && Form::Two.is_machine() && !Form::Plain.is_machine());
}

#[test]
fn one_table(rt: HostRuntime) -> Result<(), Fail> {
    let mut column = Column::zeros(rt.alloc(), 2)?;
    column.set(1, Fe::from(9));
    column.push(Fe::ONE)?;
    assert_eq!(rt; column.len(), 3);
    assert_eq!(rt; column.at(1), Fe::from(9));
    let mut columns = Columns::new(rt.alloc());
    columns.push(column)?;
    assert_eq!(rt; columns.at(0, 2), Fe::ONE);
    let mut tables = Tables::new(rt.alloc());
    tables.push(Table {
        air: 0,
        instance: 0,
        columns,
    })?;
    assert_eq!(rt; tables.len(), 1);
    let mut airs = Sequence::new(rt.alloc());
    airs.push(AirShape {
        rows: 3,
        columns: 1,
        most: 1,
    })?;
    assert_eq!(rt; airs.as_slice()[0].rows, 3);
    Ok(())
}
