//! Small tables, and the values at their corners.
ghost use Rattle.std.specs.Prelude.{◌≡◌, ◌<◌, IfOk};
ghost use Rattle.gold.specs.declared.shapes.Form.TheVariants.{Plain};
ghost use Rattle.wit_columns.specs.Small.{wide, narrow, three_tables, two_airs, two_tables, three_airs};

use super::*;
use gold::{AirShape, Column, Fe, Form, Profile, Sequence, Shape, Table, Tables, Witness};
use pil_ast::Columns;
use std::alloc::{AllocError, Global};
use std::test::*;

const WIDE: AirShape = AirShape {
    rows: 2,
    columns: 2,
    most: 2,
};

const NARROW: AirShape = AirShape {
    rows: 1,
    columns: 1,
    most: 1,
};

fn shape_of(alloc: Global, airs: &[AirShape]) -> Result<Shape, AllocError>
    ensures { IfOk result (λ s. (s.airs ≡ airs.now) × (s.form ≡ Plain)) }
{
    let airs = Sequence::from_vec(Vec::from_slice(alloc, airs)?);
    Ok(Shape {
        airs,
        form: Form::Plain,
    })
}

/// A table of two columns of two rows, with n and the three numbers after it.
fn wide(alloc: Global, air: u32, instance: u32, n: u32) -> Result<Table, AllocError>
    requires { n < 100 }
    ensures { IfOk result (λ t. t ≡ wide air instance n) }
{
    let mut first = Column::new(alloc);
    first.push(Fe::from(n))?;
    first.push(Fe::from(n + 1))?;
    let mut second = Column::new(alloc);
    second.push(Fe::from(n + 2))?;
    second.push(Fe::from(n + 3))?;
    let mut columns = gold::Columns::new(alloc);
    columns.push(first)?;
    columns.push(second)?;
    Ok(Table {
        air,
        instance,
        columns,
    })
}

/// A table of one value.
fn narrow(alloc: Global, air: u32, n: u32) -> Result<Table, AllocError>
    ensures { IfOk result (λ t. t ≡ narrow air n) }
{
    let mut column = Column::new(alloc);
    column.push(Fe::from(n))?;
    let mut columns = gold::Columns::new(alloc);
    columns.push(column)?;
    Ok(Table {
        air,
        instance: 0,
        columns,
    })
}

fn three_tables(alloc: Global) -> Result<Witness, AllocError>
    ensures { IfOk result (λ w. w ≡ three_tables) }
{
    let mut tables = Tables::new(alloc);
    tables.push(wide(alloc, 0, 0, 1)?)?;
    tables.push(wide(alloc, 0, 1, 5)?)?;
    tables.push(narrow(alloc, 1, 9)?)?;
    Ok(Witness {
        profile: Profile::Small,
        tables,
    })
}

fn two_tables(alloc: Global) -> Result<Witness, AllocError>
    ensures { IfOk result (λ w. w ≡ two_tables) }
{
    let mut tables = Tables::new(alloc);
    tables.push(wide(alloc, 0, 0, 1)?)?;
    tables.push(narrow(alloc, 2, 9)?)?;
    Ok(Witness {
        profile: Profile::Small,
        tables,
    })
}

fn two_airs(alloc: Global) -> Result<Shape, AllocError>
    ensures { IfOk result (λ s. s ≡ two_airs) }
{
    shape_of(alloc, &[WIDE, NARROW])
}

fn three_airs(alloc: Global) -> Result<Shape, AllocError>
    ensures { IfOk result (λ s. s ≡ three_airs) }
{
    shape_of(alloc, &[WIDE, NARROW, NARROW])
}

/// The values of the first instance's corners, of the second's, and of the second air's table.
fn corners(columns: &TableColumns) -> [Fe; 6]
    requires { columns.now ≡ record { shape = two_airs; witness = three_tables } }
{
    [
        columns.at(0, 0, 0, 0),
        columns.at(0, 0, 0, 1),
        columns.at(0, 0, 1, 0),
        columns.at(0, 1, 0, 0),
        columns.at(0, 1, 1, 1),
        columns.at(1, 0, 0, 0),
    ]
}

/// The number of instances, by the trait alone.
fn instances_by_bound<C: Columns>(columns: &C, space: u32) -> u32
    requires { space < (C.values columns.now).spaces }
    ensures { result ≡ (C.values columns.now).instances space }
{
    columns.instances(space)
}

#[test]
fn two_and_one_instance(rt: HostRuntime) -> Result<(), Fail> {
    let witness = three_tables(rt.alloc())?;
    let shape = two_airs(rt.alloc())?;
    let columns = TableColumns::new(rt.alloc(), &witness, &shape)?;
    assert_eq!(rt; columns.instances(0), 2);
    assert_eq!(rt; columns.instances(1), 1);
    let values = corners(&columns).map(|v| v.value());
    assert_eq!(rt; values, [1u64, 2, 3, 5, 8, 9]);
    Ok(())
}

#[test]
fn no_instance(rt: HostRuntime) -> Result<(), Fail> {
    let witness = two_tables(rt.alloc())?;
    let shape = three_airs(rt.alloc())?;
    let columns = TableColumns::new(rt.alloc(), &witness, &shape)?;
    assert_eq!(rt; columns.instances(0), 1);
    assert_eq!(rt; columns.instances(1), 0);
    assert_eq!(rt; instances_by_bound(&columns, 2), 1);
    assert_eq!(rt; columns.at(0, 0, 1, 1).value(), 4);
    assert_eq!(rt; columns.at(2, 0, 0, 0).value(), 9);
    Ok(())
}
