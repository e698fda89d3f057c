//! The columns of rows: each is made by itself, whole.
ghost use Rattle.std.specs.Prelude.{◌≡◌, ◌≤◌, ◌<◌, map, take, length, IfOk, OnOk};
ghost use Rattle.gold.specs.Field.{IsCanonical};
ghost use Rattle.run_rows.specs.Tables.{padded};
ghost use Rattle.row_columns.specs.Cells.{filled};

use gold::{Column, Columns};
use std::alloc::{AllocError, Global};

/// A cell of rows that are made of a `T` each.
pub trait Cell<T>: Copy {
    ghost use Rattle.std.specs.Prelude.{ℕ};
    ghost use Rattle.gold.specs.Field.{p};

    ghost value: { Self → T → ℕ };

    /// Its value in a row.
    fn of(self, item: &T) -> u64
        ensures same { result ≡ value self item.now }
        ensures below { result < p };
}

// A column: the values of a cell, with zeros behind them.
fn column_of<T, C: Cell<T>>(
    alloc: Global,
    items: &[T],
    cell: C,
    rows: usize,
) -> Result<Column, AllocError>
    requires { length items.now ≤ rows }
    ensures { IfOk result (λ c. c ≡ padded rows (map (C.value cell) items.now)) }
{
    let mut values: Vec<u64> = items.iter().map(|item| cell.of(item)).collect(alloc)?;
    values.resize(rows, 0)?;
    Ok(Column::from_vec(values))
}

/// A column for each cell.
pub fn columns_of<T, C: Cell<T>>(
    alloc: Global,
    items: &[T],
    cells: &[C],
    rows: usize,
) -> Result<Columns, AllocError>
    requires { length items.now ≤ rows }
    ensures { IfOk result (λ c. c ≡ filled C.value rows cells.now items.now) }
{
    let mut columns = Columns::new(alloc);
    for cell in cells {
        columns.push(column_of(alloc, items, *cell, rows)?)?;
    }
    Ok(columns)
}
