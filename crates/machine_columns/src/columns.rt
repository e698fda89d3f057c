//! The columns of the machine's text.
ghost use Rattle.std.specs.Prelude.{◌≡◌, IfOk};
ghost use Rattle.gold.specs.declared.shapes.Form.TheVariants.{Two};
ghost use Rattle.zk_layout.specs.Air.{machine_shape_of};
ghost use Rattle.machine_columns.specs.Accepted.{AreWellFormed};
ghost use Rattle.machine_columns.specs.Values.{sizes_of};

use crate::place::{air_of, constants_of};
use fixed_cols::{FixedValues, Sizes, constants};
use gold::{Fe, Form, Shape, Witness};
use pil_ast::Columns;
use rv_model::Image;
use std::alloc::{AllocError, Global};
use std::marker::Model;
use wit_columns::TableColumns;
use zk_layout::{Air, Namespace, machine_shape};

/// The values of which the machine's text speaks, of an image and of tables. A value is found in constant time. Contracts
/// see them as the image and the tables.
#[derive(Drop)]
pub struct MachineColumns<'a> {
    image: &'a Image,
    fixed: FixedValues,
    tables: TableColumns<'a>,
}

impl<'a> Model for MachineColumns<'a> {
    ghost use Rattle.machine_columns.specs.Place.{Claim, AreColumnsOf};

    ghost Value = { Claim };

    ghost view = { λ c. record { image = c.image.now; witness = c.tables.witness } };

    ghost invariant = { λ c. AreColumnsOf c.image.now c.fixed c.tables };
}

/// The tables' profile, and how many there are of each air.
fn sizes(witness: &Witness, tables: &TableColumns) -> Sizes
    requires { tables.now ≡ record { shape = machine_shape_of Two; witness = witness.now } }
    ensures { result ≡ sizes_of witness.now }
{
    Sizes {
        profile: witness.profile,
        counts: [
            tables.instances(Air::Main.number()),
            tables.instances(Air::Mem.number()),
            tables.instances(Air::Binary.number()),
            tables.instances(Air::Shift.number()),
            tables.instances(Air::Arith.number()),
            tables.instances(Air::Align.number()),
            tables.instances(Air::Out.number()),
        ],
    }
}

/// The profile of well-formed tables, and how many there are of each air.
///
/// # Errors
///
/// Memory ran out.
pub fn table_sizes(alloc: Global, witness: &Witness) -> Result<Sizes, AllocError>
    requires { AreWellFormed witness.now }
    ensures { IfOk result (λ found. found ≡ sizes_of witness.now) }
{
    let shape = machine_shape(alloc, Form::Two)?;
    let tables = TableColumns::new(alloc, witness, &shape)?;
    Ok(sizes(witness, &tables))
}

impl<'a> MachineColumns<'a> {
    /// The columns of an image and of tables that are well-formed. The shape is the machine's, of form Two.
    ///
    /// # Errors
    ///
    /// Memory ran out.
    pub fn new(
        alloc: Global,
        image: &'a Image,
        witness: &'a Witness,
        shape: &'a Shape,
    ) -> Result<MachineColumns<'a>, AllocError>
        requires shape { shape.now ≡ machine_shape_of Two }
        requires tables { AreWellFormed witness.now }
        ensures { IfOk result (λ c. c ≡ record { image = image.now; witness = witness.now }) }
    {
        let tables = TableColumns::new(alloc, witness, shape)?;
        let sizes = sizes(witness, &tables);
        let fixed = constants(alloc, image, &sizes)?;
        Ok(MachineColumns {
            image,
            fixed,
            tables,
        })
    }
}

impl<'a> Columns for MachineColumns<'a> {
    ghost use Rattle.machine_columns.specs.Values.{values_of};

    ghost values = { λ c. values_of c.image c.witness };

    #[inline]
    fn instances(&self, space: u32) -> u32 {
        self.fixed.instances(space)
    }

    #[inline]
    fn at(&self, space: u32, instance: u32, column: u32, row: u32) -> Fe {
        let namespace = Namespace::at(space);
        let constants = constants_of(namespace);
        if column < constants {
            return self.fixed.at(space, instance, column, row);
        }
        match air_of(namespace) {
            Some(air) => self
                .tables
                .at(air.number(), instance, column - constants, row),
            None => Fe::ZERO,
        }
    }
}
