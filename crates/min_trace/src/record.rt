//! What a step did.
ghost use Rattle.std.specs.Prelude.{◌≡◌, slice_index};
ghost use Rattle.min_trace.specs.Record.{written_to, record_of};

use crate::{constant_of, op_of, rd_of, rs1_of, rs2_of, uw_of};
use rv_model::{Cpu, op, operand};
use rv_word::{Instr, Kind, OpNo, Reg};

/// The access of a load or a store to memory.
#[derive(Clone, Copy, Debug, PartialEq, Eq)]
pub struct MemAct {
    /// The doubleword's number: its byte address divided by 8.
    pub index: u32,
    /// The byte within it at which the access begins.
    pub off: u8,
    pub kind: Kind,
    /// The doubleword before the step.
    pub old: u64,
    /// For a load what comes into the register, for a store the new doubleword.
    pub result: u64,
}

/// What a step of a run did.
#[derive(Clone, Copy, Debug, PartialEq, Eq)]
pub struct StepRecord {
    /// The step's number in the run, from 0.
    pub step: u32,
    pub pc: u64,
    pub instr: Instr,
    /// The registers that are read: x17 first for ECALL, and x0 where the instruction names none.
    pub rs1: Reg,
    pub rs2: Reg,
    /// rs1's and rs2's values before the step.
    pub a: u64,
    pub s: u64,
    /// The operation `op(first, b) = (c, flag)`, where first is `a`, or the low 32 bits of `a` where the instruction has uw.
    pub op: OpNo,
    pub b: u64,
    pub c: u64,
    pub flag: bool,
    /// What a load or a store did.
    pub mem: Option<MemAct>,
    /// The register other than x0 that was written, and its value after the step.
    pub rd: Option<(Reg, u64)>,
    /// The next pc; None at the halt.
    pub next: Option<u64>,
}

fn register(cpu: &Cpu, reg: Reg) -> u64
    ensures { result ≡ slice_index cpu.now.x reg }
{
    cpu.x[reg.number() as usize]
}

fn written_to(rd: Reg, after: &Cpu) -> Option<(Reg, u64)>
    ensures { result ≡ written_to rd after.now }
{
    if rd.number() == 0 {
        None
    } else {
        Some((rd, register(after, rd)))
    }
}

/// The record of an instruction, by pc and registers before and after it.
pub fn record_of(
    step: u32,
    instr: &Instr,
    before: &Cpu,
    mem: Option<MemAct>,
    after: &Cpu,
    next: Option<u64>,
) -> StepRecord
    ensures { result ≡ record_of step instr.now before.now mem after.now next }
{
    let (rs1, rs2) = (rs1_of(instr), rs2_of(instr));
    let (a, s) = (register(before, rs1), register(before, rs2));
    let operation = op_of(instr);
    let b = constant_of(instr, before.pc).unwrap_or(s);
    let (c, flag) = op(operation, operand(uw_of(instr), a), b);
    StepRecord {
        step,
        pc: before.pc,
        instr: *instr,
        rs1,
        rs2,
        a,
        s,
        op: operation,
        b,
        c,
        flag,
        mem,
        rd: written_to(rd_of(instr), after),
        next,
    }
}
