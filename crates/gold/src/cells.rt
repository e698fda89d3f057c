//! The values of a table.
ghost use Rattle.std.specs.Prelude.{◌≡◌, ◌<◌, ◌++◌, ◌∷◌, ◌↔◌, [], length, replicate, slice_get, slice_index, slice_index_or, slice_set, IfOk, IsTrue, OnOk, OnErr, Some};
ghost use Rattle.gold.specs.Field.{IsCanonical, AreCanonical};

use crate::Fe;
use std::alloc::{AllocError, Global};
use std::marker::Model;

/// The values of one column, row by row, each below p. Contracts see it as the list of them.
#[derive(Debug, Drop)]
pub struct Column {
    values: Vec<u64>,
}

impl Model for Column {
    ghost use Rattle.std.specs.Prelude.{List, ℕ};
    ghost use Rattle.gold.specs.Field.{IsCanonical};

    ghost Value = { List ℕ };

    ghost view = { λ c. c.values.items };

    ghost invariant = { λ c. IsCanonical c.values.items };
}

impl Column {
    /// A column without rows. It takes no memory.
    pub fn new(alloc: Global) -> Column
        ensures { result ≡ [] }
    {
        Column {
            values: Vec::new(alloc),
        }
    }

    /// A column of zeros.
    pub fn zeros(alloc: Global, rows: usize) -> Result<Column, AllocError>
        ensures { IfOk result (λ c. c ≡ replicate rows 0) }
    {
        Ok(Column {
            values: vec![in alloc; 0u64; rows]?,
        })
    }

    /// The column of these values. The vector is moved, and no memory is taken.
    pub fn from_vec(values: Vec<u64>) -> Column
        requires { IsCanonical values.items }
        ensures { result ≡ values.items }
    {
        Column { values }
    }

    /// The vector of the values. It is moved, and no memory is taken.
    pub fn into_vec(self) -> Vec<u64>
        ensures items { result.items ≡ self }
        ensures canonical { IsCanonical result.items }
    {
        let Column { values } = self;
        values
    }

    #[inline]
    pub fn as_slice(&self) -> &[u64]
        ensures items { result.now ≡ self.now }
        ensures canonical { IsCanonical self.now }
    {
        self.values.as_slice()
    }

    /// The number of rows.
    #[inline]
    pub fn len(&self) -> usize
        ensures { result ≡ length self.now }
    {
        self.values.len()
    }

    #[inline]
    pub fn is_empty(&self) -> bool
        ensures { IsTrue result ↔ (self.now ≡ []) }
    {
        self.values.is_empty()
    }

    /// The value at a row.
    #[inline]
    pub fn at(&self, row: usize) -> Fe
        requires { row < length self.now }
        ensures { slice_get self.now row ≡ Some result }
    {
        Fe::new(self.values[row])
    }

    /// Adds a row. An `Err` changes nothing.
    #[inline]
    pub fn push(&mut self, value: Fe) -> Result<(), AllocError>
        ensures ok { OnOk result (self.new ≡ self.old ++ value ∷ []) }
        ensures err { OnErr result (self.new ≡ self.old) }
    {
        self.values.push(value.value())?;
        Ok(())
    }

    /// Writes the value at a row.
    #[inline]
    pub fn set(&mut self, row: usize, value: Fe)
        requires { row < length self.old }
        ensures { self.new ≡ slice_set self.old row value }
    {
        self.values[row] = value.value();
    }
}

/// The columns of a table in order. Contracts see them as the list of their lists of values.
#[derive(Debug, Drop)]
pub struct Columns {
    columns: Vec<Column>,
}

impl Model for Columns {
    ghost use Rattle.std.specs.Prelude.{List, ℕ};
    ghost use Rattle.gold.specs.Field.{AreCanonical};

    ghost Value = { List (List ℕ) };

    ghost view = { λ c. c.columns.items };

    ghost invariant = { λ c. AreCanonical c.columns.items };
}

impl Columns {
    /// No columns. It takes no memory.
    pub fn new(alloc: Global) -> Columns
        ensures { result ≡ [] }
    {
        Columns {
            columns: Vec::new(alloc),
        }
    }

    /// These columns. The vector is moved, and no memory is taken.
    pub fn from_vec(columns: Vec<Column>) -> Columns
        requires { AreCanonical columns.items }
        ensures { result ≡ columns.items }
    {
        Columns { columns }
    }

    /// The vector of the columns. It is moved, and no memory is taken.
    pub fn into_vec(self) -> Vec<Column>
        ensures items { result.items ≡ self }
        ensures canonical { AreCanonical result.items }
    {
        let Columns { columns } = self;
        columns
    }

    #[inline]
    pub fn as_slice(&self) -> &[Column]
        ensures items { result.now ≡ self.now }
        ensures canonical { AreCanonical self.now }
    {
        self.columns.as_slice()
    }

    /// The number of columns.
    #[inline]
    pub fn len(&self) -> usize
        ensures { result ≡ length self.now }
    {
        self.columns.len()
    }

    #[inline]
    pub fn is_empty(&self) -> bool
        ensures { IsTrue result ↔ (self.now ≡ []) }
    {
        self.columns.is_empty()
    }

    /// The value of a column at a row.
    #[inline]
    pub fn at(&self, column: usize, row: usize) -> Fe
        requires column { column < length self.now }
        requires row { row < length (slice_index_or self.now column []) }
        ensures { slice_get (slice_index_or self.now column []) row ≡ Some result }
    {
        self.columns[column].at(row)
    }

    /// Adds a column. An `Err` changes nothing.
    pub fn push(&mut self, column: Column) -> Result<(), AllocError>
        ensures ok { OnOk result (self.new ≡ self.old ++ column ∷ []) }
        ensures err { OnErr result (self.new ≡ self.old) }
    {
        let _ = &column.values;
        self.columns.push(column)?;
        Ok(())
    }
}
