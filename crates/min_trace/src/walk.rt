//! One step of a replay.
ghost use Rattle.std.specs.Prelude.{◌≡◌, ◌+◌, ◌<◌, ◌≤◌, ℕ, Some, IsSome, IfSome, drop, length, OnSome, slice_index};
ghost use Rattle.rv_model.specs.Image.{fetch};
ghost use Rattle.rv_model.specs.Code.{instr_of};
ghost use Rattle.rv_model.specs.Cpu.{IsGood};
ghost use Rattle.rv_model.specs.Run.{step_at};
ghost use Rattle.min_trace.specs.Record.{act, old_of, cpu_at, record_at, old_at};
ghost use Rattle.min_trace.specs.Chunk.{IsStep};
ghost use Rattle.min_trace.specs.Found.{old_found, next_told, IsFront};

use crate::record::record_of;
use crate::{MemAct, STEPS_PER_CHUNK, StepRecord};
use rv_model::{Access, Cpu, Image, StepAnswer};
use rv_word::Instr;

// The instruction at a pc that has one.
fn instruction(image: &Image, pc: u64) -> Instr
    requires { IsSome (instr_of (fetch image.now pc)) }
    ensures { instr_of (fetch image.now pc) ≡ Some result }
{
    match image.instruction(pc) {
        Some(instr) => instr,
        None => unreachable!(),
    }
}

fn act(access: &Access, old: u64) -> MemAct
    requires { IsGood access.now }
    ensures { Some result ≡ act (Some access.now) (λ _. old) }
{
    MemAct {
        index: access.index(),
        off: access.offset(),
        kind: access.kind,
        old,
        result: access.result(old),
    }
}

// The access, where the doubleword that it touches stands at `at`.
fn act_at(access: Option<Access>, olds: &[u64], at: usize) -> Option<MemAct>
    requires good { IfSome access IsGood }
    requires room { OnSome access (at < length olds.now) }
    ensures { result ≡ act access (λ _. slice_index olds.now at) }
{
    match access {
        Some(access) => Some(act(&access, olds[at])),
        None => None,
    }
}

fn old_in(mem: Option<MemAct>) -> u64
    ensures { result ≡ old_found mem }
{
    match mem {
        Some(act) => act.old,
        None => 0,
    }
}

fn used(mem: Option<MemAct>) -> usize
    ensures value { result ≡ length (old_of mem) }
    ensures few { result ≤ 1 }
{
    match mem {
        Some(_) => 1,
        None => 0,
    }
}

fn next_of(answer: StepAnswer, pc: u64) -> Option<u64>
    ensures { result ≡ next_told answer pc }
{
    match answer {
        StepAnswer::Next => Some(pc),
        StepAnswer::Halt | StepAnswer::Fault(_) => None,
    }
}

/// Step number `step` of the image's run, from pc and registers before it; what its load or store found stands at `at`.
pub fn walk(image: &Image, olds: &[u64], at: usize, step: u32, cpu: &mut Cpu) -> (StepRecord, usize)
    requires cpu { cpu.old ≡ cpu_at image.now step }
    requires good { IsStep (step_at image.now step) }
    requires olds { IsFront (old_at image.now step) (drop at olds.now) }
    requires low { at ≤ STEPS_PER_CHUNK }
    ensures made { result.0 ≡ record_at image.now step }
    ensures cpu { cpu.new ≡ cpu_at image.now (step + 1) }
    ensures used { result.1 ≡ at + length (old_at image.now step) }
    ensures few { result.1 ≤ at + 1 }
{
    let before = *cpu;
    let instr = instruction(image, cpu.pc);
    let access = cpu.access(&instr);
    let mem = act_at(access, olds, at);
    let answer = cpu.apply(&instr, old_in(mem));
    let made = record_of(step, &instr, &before, mem, cpu, next_of(answer, cpu.pc));
    (made, at + used(mem))
}
