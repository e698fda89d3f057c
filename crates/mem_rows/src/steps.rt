//! The accesses of steps.
ghost use Rattle.std.specs.Prelude.{OnOk, ◌≤◌, ◌∷◌, []};
ghost use Rattle.rv_model.specs.Cpu.{is_store};
ghost use Rattle.mem_rows.specs.Accesses.{register, reads, stored, of_memory, of_register, of_step};
ghost use Rattle.mem_rows.specs.Kept.{Adds};

use crate::access::{
    END, READS_MEMORY, READS_RS1, READS_RS2, WRITES_MEMORY, WRITES_RD, register, time,
};
use crate::{Access, Accesses};
use min_trace::{MemAct, StepRecord};
use rv_model::is_store;
use rv_word::Reg;
use std::alloc::AllocError;

impl Accesses {
    fn push_stored(&mut self, stores: bool, step: u32, act: &MemAct) -> Result<(), AllocError>
        ensures { OnOk result (Adds self.old self.new (stored stores step act.now)) }
    {
        if stores {
            self.put(Access {
                time: time(step, WRITES_MEMORY),
                value: act.result,
                key: act.index,
                write: true,
            })?;
        }
        Ok(())
    }

    fn push_memory(
        &mut self,
        stores: bool,
        step: u32,
        mem: &Option<MemAct>,
    ) -> Result<(), AllocError>
        ensures { OnOk result (Adds self.old self.new (of_memory stores step mem.now)) }
    {
        if let Some(act) = mem {
            self.put(Access {
                time: time(step, READS_MEMORY),
                value: act.old,
                key: act.index,
                write: false,
            })?;
            self.push_stored(stores, step, act)?;
        }
        Ok(())
    }

    fn push_register(&mut self, step: u32, rd: &Option<(Reg, u64)>) -> Result<(), AllocError>
        ensures { OnOk result (Adds self.old self.new (of_register step rd.now)) }
    {
        if let Some((reg, value)) = *rd {
            self.put(Access {
                time: time(step, WRITES_RD),
                value,
                key: register(reg),
                write: true,
            })?;
        }
        Ok(())
    }

    fn push_read(&mut self, at: u64, reg: Reg, value: u64) -> Result<(), AllocError>
        requires { at ≤ END }
        ensures { OnOk result (Adds self.old self.new (reads (register reg) at value ∷ [])) }
    {
        self.put(Access {
            time: at,
            value,
            key: register(reg),
            write: false,
        })
    }

    // The accesses of a step, by slot.
    pub(crate) fn push_step(&mut self, step: &StepRecord) -> Result<(), AllocError>
        ensures { OnOk result (Adds self.old self.new (of_step step.now)) }
    {
        self.push_read(time(step.step, READS_RS1), step.rs1, step.a)?;
        self.push_read(time(step.step, READS_RS2), step.rs2, step.s)?;
        self.push_memory(is_store(&step.instr), step.step, &step.mem)?;
        self.push_register(step.step, &step.rd)?;
        Ok(())
    }
}
