//! The instances of Mem.
ghost use Rattle.std.specs.Prelude.{◌≡◌, ◌+◌, ◌*◌, ◌<◌, ◌≤◌, ◌^◌, take, length, None, All, IfOk};
ghost use Rattle.zk_layout.specs.Air.{rows_per};
ghost use Rattle.zk_layout.specs.declared.air.Air.TheVariants as airs;
ghost use Rattle.planner.specs.Jobs.{instances};
ghost use Rattle.mem_rows.specs.declared.access.Access.{Access as AnyAccess};
ghost use Rattle.mem_rows.specs.Columns.{last_from};
ghost use Rattle.mem_rows.specs.Rows.{mem_table, mem_tables_of};

use crate::Access;
use crate::access::END;
use crate::columns::columns_of;
use gold::Table;
use std::alloc::{AllocError, Global};
use zk_layout::Air;

// The accesses of an instance, of those that are left.
fn front(left: &[Access], rows: usize) -> &[Access]
    ensures { result.now ≡ take rows left.now }
{
    if rows < left.len() {
        &left[..rows]
    } else {
        left
    }
}

fn before(accesses: &[Access], start: usize) -> Option<Access>
    requires { start ≤ length accesses.now }
    ensures { result ≡ last_from None accesses.now start }
{
    if start == 0 {
        None
    } else {
        Some(accesses[start - 1])
    }
}

fn instance_of(alloc: Global, accesses: &[Access], instance: u32) -> Result<Table, AllocError>
    requires within { instance * rows_per airs.Mem < length accesses.now }
    requires times { All (λ (a : AnyAccess). a.time ≤ END) accesses.now }
    ensures { IfOk result (λ t. t ≡ mem_table accesses.now instance) }
{
    let rows = Air::Mem.rows() as usize;
    let start = instance as usize * rows;
    let own = front(&accesses[start..], rows);
    let columns = columns_of(alloc, before(accesses, start), own, rows)?;
    Ok(Table {
        air: Air::Mem.number(),
        instance,
        columns,
    })
}

// How many instances there are. No memory holds so many accesses that they aren't 32 bits.
fn count_of(accesses: &[Access]) -> Result<u32, AllocError>
    requires { length accesses.now < 2 ^ 63 }
    ensures { IfOk result (λ n. n ≡ instances airs.Mem (length accesses.now)) }
{
    let rows = Air::Mem.rows() as usize;
    match u32::try_from((accesses.len() + (rows - 1)) / rows) {
        Ok(count) => Ok(count),
        Err(_) => Err(AllocError),
    }
}

/// All instances, over accesses in order.
pub fn tables_of(alloc: Global, accesses: &[Access]) -> Result<Vec<Table>, AllocError>
    requires few { length accesses.now < 2 ^ 63 }
    requires times { All (λ (a : AnyAccess). a.time ≤ END) accesses.now }
    ensures { IfOk result (λ v. v.items ≡ mem_tables_of accesses.now) }
{
    let mut tables = Vec::new(alloc);
    for instance in 0..count_of(accesses)? {
        tables.push(instance_of(alloc, accesses, instance)?)?;
    }
    Ok(tables)
}
