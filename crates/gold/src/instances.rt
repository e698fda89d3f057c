//! The tables of a witness.
ghost use Rattle.std.specs.Prelude.{◌≡◌, ◌++◌, ◌∷◌, ◌↔◌, [], length, IsTrue, OnOk, OnErr};
ghost use Rattle.gold.specs.Tables.{HaveCanonical};

use crate::{Columns, Profile};
use std::alloc::{AllocError, Global};
use std::marker::Model;

/// One instance of an air.
#[derive(Debug, Drop)]
pub struct Table {
    /// The air's number.
    pub air: u32,
    /// The instance's number within the air, from 0.
    pub instance: u32,
    /// The values, column by column.
    pub columns: Columns,
}

/// Tables in order. Contracts see them as the list of them.
#[derive(Debug, Drop)]
pub struct Tables {
    tables: Vec<Table>,
}

impl Model for Tables {
    ghost use Rattle.std.specs.Prelude.{List};
    ghost use Rattle.gold.specs.declared.instances.Table.{Table};
    ghost use Rattle.gold.specs.Tables.{HaveCanonical};

    ghost Value = { List Table };

    ghost view = { λ t. t.tables.items };

    ghost invariant = { λ t. HaveCanonical t.tables.items };
}

impl Tables {
    /// No tables. It takes no memory.
    pub fn new(alloc: Global) -> Tables
        ensures { result ≡ [] }
    {
        Tables {
            tables: Vec::new(alloc),
        }
    }

    /// These tables. The vector is moved, and no memory is taken.
    pub fn from_vec(tables: Vec<Table>) -> Tables
        requires { HaveCanonical tables.items }
        ensures { result ≡ tables.items }
    {
        Tables { tables }
    }

    /// The vector of the tables. It is moved, and no memory is taken.
    pub fn into_vec(self) -> Vec<Table>
        ensures items { result.items ≡ self }
        ensures canonical { HaveCanonical result.items }
    {
        let Tables { tables } = self;
        tables
    }

    #[inline]
    pub fn as_slice(&self) -> &[Table]
        ensures items { result.now ≡ self.now }
        ensures canonical { HaveCanonical self.now }
    {
        self.tables.as_slice()
    }

    /// The number of tables.
    #[inline]
    pub fn len(&self) -> usize
        ensures { result ≡ length self.now }
    {
        self.tables.len()
    }

    #[inline]
    pub fn is_empty(&self) -> bool
        ensures { IsTrue result ↔ (self.now ≡ []) }
    {
        self.tables.is_empty()
    }

    /// Adds a table. An `Err` changes nothing.
    pub fn push(&mut self, table: Table) -> Result<(), AllocError>
        ensures ok { OnOk result (self.new ≡ self.old ++ table ∷ []) }
        ensures err { OnErr result (self.new ≡ self.old) }
    {
        let _ = table.columns.as_slice();
        self.tables.push(table)?;
        Ok(())
    }
}

/// What a program publishes of its run.
#[derive(Debug, Drop)]
pub struct Witness {
    /// How large the instances of a machine's Main are: Small where the tables aren't a machine's.
    pub profile: Profile,
    /// The tables in the order of their file, by air and then by instance.
    pub tables: Tables,
}
