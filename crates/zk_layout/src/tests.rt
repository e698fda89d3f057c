//! The airs by name, number, rows and columns, the operations at the ends of each air's range, and the
//! machine's shape.
use super::*;
use gold::{Form, Profile};
use rv_word::OpNo;
use std::test::*;

#[test]
fn airs_in_order(rt: HostRuntime) {
    let airs = [
        (Air::Main, 4096),
        (Air::Mem, 8192),
        (Air::Binary, 4096),
        (Air::Shift, 1024),
        (Air::Arith, 1024),
        (Air::Align, 2048),
        (Air::Out, 64),
    ];
    for (i, (air, rows)) in airs.iter().enumerate() {
        assert_eq!(rt; air.number() as usize, i);
        assert_eq!(rt; air.rows(), *rows);
    }
}

#[test]
fn main_in_both_profiles(rt: HostRuntime) {
    assert_eq!(rt; Air::Main.rows_in(Profile::Small), 4096);
    assert_eq!(rt; Air::Main.rows_in(Profile::Wide), 16_384);
    assert_eq!(rt; Air::Mem.rows_in(Profile::Wide), 8192);
}

#[test]
fn shape_of_the_machine(rt: HostRuntime) -> Result<(), Fail> {
    let shape = machine_shape(rt.alloc(), Form::Two)?;
    let columns = [37, 15, 57, 30, 79, 38, 2];
    assert_eq!(rt; shape.airs.len(), 7);
    for (air, wanted) in shape.airs.as_slice().iter().zip(columns) {
        assert_eq!(rt; air.columns, wanted);
    }
    assert_eq!(rt; shape.airs.as_slice()[6].most, 1);
    Ok(())
}

#[test]
fn namespaces_of_airs(rt: HostRuntime) {
    assert_eq!(rt; Namespace::Bit.number(), 0);
    assert_eq!(rt; Namespace::of_air(Air::Main).number(), 6);
    assert_eq!(rt; Namespace::of_air(Air::Out).number(), 8);
    assert_eq!(rt; Namespace::of_air(Air::Arith).number(), 12);
}

#[test]
fn air_of_an_operation(rt: HostRuntime) {
    let operations = [
        (OpNo::Add, Air::Binary),
        (OpNo::Subw, Air::Binary),
        (OpNo::Sll, Air::Shift),
        (OpNo::Sraw, Air::Shift),
        (OpNo::Mul, Air::Arith),
        (OpNo::Remuw, Air::Arith),
        (OpNo::Sh1add, Air::Binary),
        (OpNo::Cznez, Air::Binary),
    ];
    for (op, air) in operations {
        assert_eq!(rt; Air::of_operation(op), air);
    }
}
