//! The final values: what is read of them after the run, and the table of Out.
ghost use Rattle.std.specs.Prelude.{◌≡◌, ◌++◌, ◌<◌, ◌≤◌, ◌/◌, ◌%◌, ◌^◌, map, length, IfOk, OnOk};
ghost use Rattle.std.specs.List.{range_with_len};
ghost use Rattle.mem_rows.specs.Accesses.{output_word, output_reads, last_reads};
ghost use Rattle.mem_rows.specs.Kept.{Adds};
ghost use Rattle.mem_rows.specs.Rows.{final_values, out_table};

use crate::access::{END, REGISTERS};
use crate::columns::{high_column, low_column};
use crate::{Access, Accesses};
use gold::{Columns, Table};
use rv_model::{EXIT_REGISTER, OUTPUT_INDEX, OUTPUT_WORDS, Public};
use std::alloc::{AllocError, Global};
use zk_layout::Air;

#[tactic(auto, unfolding(crate::specs::Accesses::output_word))]
fn output_word(public: &Public, k: u32) -> u64
    requires { k < OUTPUT_WORDS }
    ensures { result ≡ output_word public.now k }
{
    let at = 8 * k as usize;
    let bytes = &public.output;
    u64::from_le_bytes([
        bytes[at],
        bytes[at + 1],
        bytes[at + 2],
        bytes[at + 3],
        bytes[at + 4],
        bytes[at + 5],
        bytes[at + 6],
        bytes[at + 7],
    ])
}

impl Accesses {
    fn push_output(&mut self, public: &Public) -> Result<(), AllocError>
        ensures { OnOk result (Adds self.old self.new (output_reads public.now OUTPUT_WORDS)) }
    {
        for k in 0..OUTPUT_WORDS {
            self.put(Access {
                time: END,
                value: output_word(public, k),
                key: OUTPUT_INDEX + k,
                write: false,
            })?;
        }
        Ok(())
    }

    // The reads after the run.
    pub(crate) fn push_last(&mut self, public: &Public) -> Result<(), AllocError>
        ensures { OnOk result (Adds self.old self.new (last_reads public.now)) }
    {
        self.put(Access {
            time: END,
            value: public.exit,
            key: REGISTERS + EXIT_REGISTER as u32,
            write: false,
        })?;
        self.push_output(public)?;
        Ok(())
    }
}

fn push_words(values: &mut Vec<u64>, public: &Public) -> Result<(), AllocError>
    ensures { OnOk result (values.new.items ≡ values.old.items ++ map (output_word public.now) (range_with_len 0 OUTPUT_WORDS)) }
{
    for k in 0..OUTPUT_WORDS {
        values.push(output_word(public, k))?;
    }
    Ok(())
}

fn final_values(alloc: Global, public: &Public) -> Result<Vec<u64>, AllocError>
    ensures { IfOk result (λ v. v.items ≡ final_values public.now) }
{
    let mut values = Vec::new(alloc);
    values.push(public.exit)?;
    push_words(&mut values, public)?;
    Ok(values)
}

/// The table of Out of a run that publishes this.
pub fn out_table(alloc: Global, public: &Public) -> Result<Table, AllocError>
    ensures { IfOk result (λ t. t ≡ out_table public.now) }
{
    let values = final_values(alloc, public)?;
    let rows = Air::Out.rows() as usize;
    let mut columns = Columns::new(alloc);
    columns.push(low_column(alloc, &values, rows)?)?;
    columns.push(high_column(alloc, &values, rows)?)?;
    Ok(Table {
        air: Air::Out.number(),
        instance: 0,
        columns,
    })
}
