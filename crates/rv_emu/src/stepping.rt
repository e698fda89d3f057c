//! Steps within a chunk.
ghost use Rattle.std.specs.Prelude.{◌≡◌, ◌+◌, ◌≤◌, ◌<◌, ℕ, Some, IfOk, OnErr, MatchOption};
ghost use Rattle.rv_model.specs.Image.{fetch};
ghost use Rattle.rv_model.specs.Code.{instr_of};
ghost use Rattle.rv_model.specs.State.{executed, step};
ghost use Rattle.rv_model.specs.Cpu.{access};
ghost use Rattle.mem_pages.specs.Memory.{word_of};
ghost use Rattle.rv_emu.specs.Emulator.{state_of, old_by, old_here, Leads, IsTouched, IsAfter, Stopped};

use mem_pages::Memory;
use min_trace::execution_law;
use rv_model::{Cpu, Image, RunFault, StepAnswer, is_store};
use rv_word::{Instr, decode};
use std::alloc::AllocError;

// What the instruction touches, if it makes an access at a good address: the doubleword is noted, and a store puts its
// value. What is answered is the doubleword as it was. It is noted first, so that nothing has changed where memory is
// wanting.
#[inline(always)]
fn touch(
    instr: &Instr,
    cpu: &Cpu,
    memory: &mut Memory,
    olds: &mut Vec<u64>,
) -> Result<u64, AllocError>
    ensures ok { IfOk result (λ old. IsTouched instr.now (state_of cpu.now memory.old) (access instr.now (state_of cpu.now memory.old)) old (word_of memory.new) olds.old.items olds.new.items) }
    ensures err { OnErr result ((memory.new ≡ memory.old) × (olds.new.items ≡ olds.old.items)) }
{
    let Some(access) = cpu.access(instr) else {
        return Ok(0);
    };
    if !access.is_good() {
        return Ok(0);
    }
    let index = access.index();
    let old = memory.word(index);
    olds.push(old)?;
    if is_store(instr) {
        if let Err(error) = memory.set_word(index, access.result(old)) {
            olds.pop();
            return Err(error);
        }
    }
    Ok(old)
}

#[inline(always)]
fn execute(
    instr: &Instr,
    cpu: &mut Cpu,
    memory: &mut Memory,
    olds: &mut Vec<u64>,
) -> Result<StepAnswer, AllocError>
    ensures ok { IfOk result (λ answer. Leads (executed instr.now (state_of cpu.old memory.old)) (old_by instr.now (state_of cpu.old memory.old)) answer (state_of cpu.old memory.old) (state_of cpu.new memory.new) olds.old.items olds.new.items) }
    ensures err { OnErr result ((state_of cpu.new memory.new ≡ state_of cpu.old memory.old) × (olds.new.items ≡ olds.old.items)) }
{
    execution_law();
    let old = touch(instr, cpu, memory, olds)?;
    Ok(cpu.apply(instr, old))
}

// A step at a pc whose word was not decoded before.
#[cold]
fn fetch_and_execute(
    image: &Image,
    cpu: &mut Cpu,
    memory: &mut Memory,
    olds: &mut Vec<u64>,
) -> Result<StepAnswer, AllocError>
    ensures ok { IfOk result (λ answer. Leads (step image.now (state_of cpu.old memory.old)) (old_here image.now (state_of cpu.old memory.old)) answer (state_of cpu.old memory.old) (state_of cpu.new memory.new) olds.old.items olds.new.items) }
    ensures err { OnErr result ((state_of cpu.new memory.new ≡ state_of cpu.old memory.old) × (olds.new.items ≡ olds.old.items)) }
{
    let pc = cpu.pc;
    match image.fetch(pc) {
        None => Ok(StepAnswer::Fault(RunFault::BadPc(pc))),
        Some(word) => match decode(word) {
            None => Ok(StepAnswer::Fault(RunFault::Illegal(pc, word))),
            Some(instr) => execute(&instr, cpu, memory, olds),
        },
    }
}

// A step at a word that was decoded.
#[inline(always)]
fn execute_decoded(
    image: &Image,
    instr: &Instr,
    cpu: &mut Cpu,
    memory: &mut Memory,
    olds: &mut Vec<u64>,
) -> Result<StepAnswer, AllocError>
    requires { instr_of (fetch image.now cpu.old.pc) ≡ Some instr.now }
    ensures ok { IfOk result (λ answer. Leads (step image.now (state_of cpu.old memory.old)) (old_here image.now (state_of cpu.old memory.old)) answer (state_of cpu.old memory.old) (state_of cpu.new memory.new) olds.old.items olds.new.items) }
    ensures err { OnErr result ((state_of cpu.new memory.new ≡ state_of cpu.old memory.old) × (olds.new.items ≡ olds.old.items)) }
{
    execute(instr, cpu, memory, olds)
}

// As go_on, but it stops before a word that was not decoded too, and then answers None. It is compiled as a function of
// its own, so that the run is as fast wherever it is called from.
#[inline(never)]
fn go_on_decoded(
    image: &Image,
    cpu: &mut Cpu,
    memory: &mut Memory,
    olds: &mut Vec<u64>,
    steps: &mut u32,
    most: u32,
) -> Result<Option<StepAnswer>, AllocError>
    requires { steps.old ≤ most }
    ensures after { (from : ℕ) → IsAfter image.now from steps.old (state_of cpu.old memory.old) olds.old.items → IsAfter image.now from steps.new (state_of cpu.new memory.new) olds.new.items }
    ensures few { steps.new ≤ most }
    ensures more { steps.old ≤ steps.new }
    ensures stopped { IfOk result (λ found. MatchOption found (steps.new < most) (λ answer. (from : ℕ) → IsAfter image.now from steps.old (state_of cpu.old memory.old) olds.old.items → Stopped answer image.now from steps.new most)) }
{
    while *steps < most {
        let Some(instr) = image.decoded(cpu.pc) else {
            return Ok(None);
        };
        match execute_decoded(image, instr, cpu, memory, olds)? {
            StepAnswer::Next => *steps += 1,
            answer => return Ok(Some(answer)),
        }
    }
    Ok(Some(StepAnswer::Next))
}

/// Goes on within a chunk of which `steps` were done, until `most` are done or a step doesn't lead on. What is answered
/// is Next in the first case; in the other the machine stands before that step. Where memory is wanting it stands
/// before the step that wants it.
pub fn go_on(
    image: &Image,
    cpu: &mut Cpu,
    memory: &mut Memory,
    olds: &mut Vec<u64>,
    steps: &mut u32,
    most: u32,
) -> Result<StepAnswer, AllocError>
    requires { steps.old ≤ most }
    ensures after { (from : ℕ) → IsAfter image.now from steps.old (state_of cpu.old memory.old) olds.old.items → IsAfter image.now from steps.new (state_of cpu.new memory.new) olds.new.items }
    ensures few { steps.new ≤ most }
    ensures stopped { IfOk result (λ answer. (from : ℕ) → IsAfter image.now from steps.old (state_of cpu.old memory.old) olds.old.items → Stopped answer image.now from steps.new most) }
{
    while *steps < most {
        match go_on_decoded(image, cpu, memory, olds, steps, most)? {
            Some(answer) => return Ok(answer),
            None => match fetch_and_execute(image, cpu, memory, olds)? {
                StepAnswer::Next => *steps += 1,
                answer => return Ok(answer),
            },
        }
    }
    Ok(StepAnswer::Next)
}
