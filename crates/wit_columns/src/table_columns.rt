//! The tables of a witness, found by air and instance.
ghost use Rattle.std.specs.Prelude.{◌≡◌, ◌+◌, ◌<◌, ◌≤◌, ◌==◌, All, Some, drop, length, IfOk};
ghost use Rattle.std.specs.List.{find, prefix_len};
ghost use Rattle.gold.specs.Shapes.{HaveShape, counts_of};
ghost use Rattle.wit_columns.specs.Values.{instances_of, width_of, rows_of, is_instance, values_of};
ghost use Rattle.gold.specs.Shapes.{airs_of};
ghost use Rattle.wit_columns.specs.Index.{starts_from};

use gold::{Fe, Profile, Sequence, Shape, Table, Witness};
use pil_ast::Columns;
use pil_program::InstanceColumns;
use std::alloc::{AllocError, Global};
use std::marker::Model;

/// The tables of a witness, with the places at which each air's begin. A value is found in constant
/// time. Contracts see it as the shape and the witness.
#[derive(Drop)]
pub struct TableColumns<'a> {
    shape: &'a Shape,
    profile: Profile,
    tables: &'a [Table],
    /// Where the tables of each air begin, and where those of the last air end.
    starts: Sequence<usize>,
}

impl<'a> Model for TableColumns<'a> {
    ghost use Rattle.wit_columns.specs.Index.{Shaped, IsIndexed, witness_of};

    ghost Value = { Shaped };

    ghost view = { λ c. record { shape = c.shape.now; witness = witness_of c.profile c.tables.now } };

    ghost invariant = { λ c. IsIndexed c.shape.now (witness_of c.profile c.tables.now) c.starts };
}

/// Where the tables of an air end, which begin at a place.
fn end_of(tables: &[Table], start: usize, air: u32) -> usize
    requires { start ≤ length tables.now }
    ensures { result ≡ start + prefix_len (λ t. t.air == air) (drop start tables.now) }
{
    let mut end = start;
    while end < tables.len() && tables[end].air == air {
        end += 1;
    }
    end
}

/// Where the tables of each air begin, and where those of the last air end.
fn starts(alloc: Global, witness: &Witness, shape: &Shape) -> Result<Sequence<usize>, AllocError>
    requires { HaveShape shape.now witness.now }
    ensures { IfOk result (λ starts. starts ≡ starts_from 0 (counts_of shape.now witness.now)) }
{
    let tables = witness.tables.as_slice();
    let mut starts = Sequence::new(alloc);
    let mut start = 0;
    for air in 0..shape.airs.len() as u32 {
        starts.push(start)?;
        start = end_of(tables, start, air);
    }
    starts.push(start)?;
    Ok(starts)
}

impl<'a> TableColumns<'a> {
    /// The tables of a witness, which have the shape.
    ///
    /// # Errors
    ///
    /// Memory ran out.
    pub fn new(
        alloc: Global,
        witness: &'a Witness,
        shape: &'a Shape,
    ) -> Result<TableColumns<'a>, AllocError>
        requires { HaveShape shape.now witness.now }
        ensures same { IfOk result (λ columns. columns ≡ record { shape = shape.now; witness = witness.now }) }
        ensures values { IfOk result (λ columns. values_of columns.shape columns.witness ≡ values_of shape.now witness.now) }
    {
        let starts = starts(alloc, witness, shape)?;
        Ok(TableColumns {
            shape,
            profile: witness.profile,
            tables: witness.tables.as_slice(),
            starts,
        })
    }

    /// The number of instances of an air.
    #[inline]
    fn count(&self, air: u32) -> u32
        requires { air < length self.now.shape.airs }
        ensures { result ≡ instances_of self.now.witness.tables air }
    {
        let starts = self.starts.as_slice();
        (starts[air as usize + 1] - starts[air as usize]) as u32
    }

    /// The table of an instance of an air.
    #[inline]
    fn table(&self, air: u32, instance: u32) -> &Table
        requires air { air < length self.now.shape.airs }
        requires instance { instance < instances_of self.now.witness.tables air }
        ensures found { find (is_instance air instance) self.now.witness.tables ≡ Some result.now }
        ensures columns { length result.now.columns ≡ width_of (airs_of self.now.shape self.now.witness) air }
        ensures rows { All (λ c. length c ≡ rows_of (airs_of self.now.shape self.now.witness) air) result.now.columns }
    {
        let starts = self.starts.as_slice();
        &self.tables[starts[air as usize] + instance as usize]
    }
}

impl<'a> Columns for TableColumns<'a> {
    ghost use Rattle.wit_columns.specs.Values.{values_of};

    ghost values = { λ c. values_of c.shape c.witness };

    #[inline]
    fn instances(&self, space: u32) -> u32 {
        self.count(space)
    }

    #[inline]
    fn at(&self, space: u32, instance: u32, column: u32, row: u32) -> Fe {
        self.table(space, instance)
            .columns
            .at(column as usize, row as usize)
    }
}

impl<'a> InstanceColumns for TableColumns<'a> {
    #[inline]
    fn column(&self, space: u32, instance: u32, column: u32) -> &[u64] {
        self.table(space, instance).columns.as_slice()[column as usize].as_slice()
    }
}
