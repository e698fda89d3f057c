//! The constants of the machine's namespaces as whole columns.
ghost use Rattle.std.specs.Prelude.{◌≡◌, ◌<◌, ◌≤◌, ◌^◌, ℕ, length, slice_index_or, [], All, IfOk};
ghost use Rattle.gold.specs.Field.{AreCanonical};
ghost use Rattle.pil_ast.specs.Tree.{namespaces};
ghost use Rattle.machine_text.specs.Machine.{machine};
ghost use Rattle.verdict.specs.Frames.{constant_column, constants_at, instances_at, instances_with, held_of};

use fixed_cols::FixedValues;
use gold::{Column, Columns, Profile, Sequence};
use machine_columns::constants_of;
use pil_ast::Pil;
use std::alloc::{AllocError, Global};
use whole_columns::Stored;
use zk_layout::Namespace;

/// How many namespaces have constants alone; they come first.
pub(crate) const CONSTANT_SPACES: u32 = 6;

/// An instance of a namespace, and how many rows it has.
#[derive(Clone, Copy)]
pub(crate) struct Place {
    pub space: u32,
    pub instance: u32,
    pub rows: u32,
}

/// A constant column.
fn constant_column(
    alloc: Global,
    fixed: &FixedValues,
    place: Place,
    column: u32,
) -> Result<Column, AllocError>
    requires { place.space < 13 }
    ensures { IfOk result (λ c. c ≡ constant_column fixed.now place.space place.instance place.rows column) }
{
    let mut values = Column::new(alloc);
    for row in 0..place.rows {
        values.push(fixed.at(place.space, place.instance, column, row))?;
    }
    Ok(values)
}

/// All constant columns of an instance.
pub(crate) fn constant_columns(
    alloc: Global,
    fixed: &FixedValues,
    place: Place,
) -> Result<Columns, AllocError>
    requires { place.space < 13 }
    ensures columns { IfOk result (λ c. c ≡ constants_at fixed.now place.space place.instance place.rows) }
    ensures canonical { IfOk result AreCanonical }
{
    let mut columns = Columns::new(alloc);
    for column in 0..constants_of(Namespace::at(place.space)) {
        let values = constant_column(alloc, fixed, place, column)?;
        columns.push(values)?;
    }
    let _ = columns.as_slice();
    Ok(columns)
}

/// The constant columns of all instances of a namespace.
fn constant_instances(
    alloc: Global,
    fixed: &FixedValues,
    space: u32,
    rows: u32,
) -> Result<Sequence<Columns>, AllocError>
    requires { space < 13 }
    ensures columns { IfOk result (λ x. x ≡ instances_with fixed.now space rows) }
    ensures canonical { IfOk result (All AreCanonical) }
    ensures few { IfOk result (λ x. length x < 2 ^ 32) }
{
    let mut instances = Sequence::new(alloc);
    for instance in 0..fixed.instances(space) {
        let place = Place {
            space,
            instance,
            rows,
        };
        let columns = constant_columns(alloc, fixed, place)?;
        instances.push(columns)?;
    }
    Ok(instances)
}

/// The constants of the namespaces that have no other columns.
pub(crate) fn stored_constants(
    alloc: Global,
    pil: &Pil,
    fixed: &FixedValues,
    profile: Profile,
) -> Result<Stored, AllocError>
    requires { namespaces pil.now ≡ machine profile }
    ensures { IfOk result (λ held. held ≡ held_of fixed.now profile) }
{
    let mut spaces = Sequence::new(alloc);
    for space in 0..CONSTANT_SPACES {
        let instances = constant_instances(alloc, fixed, space, pil.rows(space))?;
        spaces.push(instances)?;
    }
    Ok(Stored::new(profile, spaces))
}
