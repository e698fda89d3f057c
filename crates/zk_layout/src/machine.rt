//! The machine's shape.
ghost use Rattle.std.specs.Prelude.{◌≡◌, IfOk, IsTrue, slice_get, Some};
ghost use Rattle.gold.specs.Shapes.{is_machine, in_profile};
ghost use Rattle.gold.specs.declared.shapes.Profile.{Profile};
ghost use Rattle.zk_layout.specs.Air.{air_number, machine_airs, machine_shape_of, shape_in};
ghost use Rattle.zk_layout.specs.declared.air.Air.{Air};

use crate::Air;
use gold::{AirShape, Form, Sequence, Shape};
use std::alloc::{AllocError, Global};

/// The shapes of the machine's airs.
fn airs(alloc: Global) -> Result<Vec<AirShape>, AllocError>
    ensures { IfOk result (λ v. v.items ≡ machine_airs) }
{
    Ok(Air::ALL.iter().map(|air| air.shape()).collect(alloc)?)
}

/// The machine's shape of a form: its seven airs, each with its rows and most instances in profile Small.
///
/// # Errors
///
/// Memory ran out.
pub fn machine_shape(alloc: Global, form: Form) -> Result<Shape, AllocError>
    requires { IsTrue (is_machine form) }
    ensures { IfOk result (λ s. s ≡ machine_shape_of form) }
{
    Ok(Shape {
        airs: Sequence::from_vec(airs(alloc)?),
        form,
    })
}

/// In each profile the machine's airs stand at their numbers, with their rows, columns and most
/// instances.
pub fn airs_by_number()
    ensures { (profile : Profile) (air : Air) → slice_get (in_profile profile machine_airs) (air_number air) ≡ Some (shape_in profile air) }
{}
