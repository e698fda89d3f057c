//! The tables in the order of their file.
ghost use Rattle.std.specs.Prelude.{◌≡◌, ◌≢◌, ◌++◌, ◌∷◌, [], ℕ, IfOk, OnOk};
ghost use Rattle.gold.specs.declared.instances.Table.{Table as AnyTable};
ghost use Rattle.rv_model.specs.Image.{Img};
ghost use Rattle.zk_layout.specs.Air.{air_number};
ghost use Rattle.mem_rows.specs.Rows.{mem_tables};
ghost use Rattle.run_tables.specs.Sequential.{sequential_tables};
ghost use Rattle.wit_pool.specs.Placed.{of_number, AreMade, AreInOrder};

use gold::{Table, Tables};
use mem_rows::out_table;
use run_tables::tables_of_jobs;
use rv_model::Public;
use std::alloc::{AllocError, Global};
use zk_layout::Air;

// A table goes behind the others of its air, or to the rest.
fn put(
    tables: &mut Tables,
    rest: &mut Vec<Table>,
    number: u32,
    table: Table,
) -> Result<(), AllocError>
    ensures here { OnOk result (tables.new ≡ tables.old ++ of_number number (table ∷ [])) }
    ensures rest { OnOk result ((other : ℕ) → other ≢ number → of_number other rest.new.items ≡ of_number other rest.old.items ++ of_number other (table ∷ [])) }
{
    if number == table.air {
        tables.push(table)?;
    } else {
        rest.push(table)?;
    }
    Ok(())
}

// Puts the tables of an air behind the others, as they stand, and gives back the rest.
fn push_air(
    alloc: Global,
    tables: &mut Tables,
    air: Air,
    made: Vec<Table>,
) -> Result<Vec<Table>, AllocError>
    ensures here { OnOk result (tables.new ≡ tables.old ++ of_number (air_number air) made.items) }
    ensures rest { IfOk result (λ rest. (other : ℕ) → other ≢ air_number air → of_number other rest.items ≡ of_number other made.items) }
{
    let number = air.number();
    let mut rest = Vec::new(alloc);
    for table in made {
        put(tables, &mut rest, number, table)?;
    }
    Ok(rest)
}

fn push_all(tables: &mut Tables, more: Vec<Table>) -> Result<(), AllocError>
    ensures { OnOk result (tables.new ≡ tables.old ++ more.items) }
{
    for table in more {
        tables.push(table)?;
    }
    Ok(())
}

// In order of the instance.
fn sorted(made: Vec<Table>) -> Vec<Table>
    ensures { (image : Img) (n : ℕ) → AreMade image n made.items → AreInOrder image n result.items }
{
    tables_of_jobs();
    let mut made = made;
    made.sort_unstable_by_key(|table| table.instance);
    made
}

/// All tables of a run that publishes this, of those of its jobs, which stand in any order, and those of Mem.
#[tactic(auto, unfolding(run_tables::specs::Sequential::sequential_tables))]
pub fn place(
    alloc: Global,
    made: Vec<Table>,
    mem: Vec<Table>,
    public: &Public,
) -> Result<Tables, AllocError>
    ensures { IfOk result (λ tables. (image : Img) (n : ℕ) → AreMade image n made.items → mem.items ≡ mem_tables image n public.now → tables ≡ sequential_tables image n public.now) }
{
    let mut tables = Tables::new(alloc);
    let made = sorted(made);
    let made = push_air(alloc, &mut tables, Air::Main, made)?;
    push_all(&mut tables, mem)?;
    let made = push_air(alloc, &mut tables, Air::Binary, made)?;
    let made = push_air(alloc, &mut tables, Air::Shift, made)?;
    let made = push_air(alloc, &mut tables, Air::Arith, made)?;
    let _none = push_air(alloc, &mut tables, Air::Align, made)?;
    tables.push(out_table(alloc, public)?)?;
    Ok(tables)
}
