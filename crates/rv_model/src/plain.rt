//! The plain machine: the meaning of a step as a program.
ghost use Rattle.std.specs.Prelude.{◌≡◌, ◌+◌, ◌*◌, ◌/◌, ◌<◌, ◌≤◌, ◌^◌, OnOk, OnErr, IfOk, unwrap_or, length, take, drop, ◌++◌, None, ℕ};
ghost use Rattle.std.specs.Int.{to_le_bytes, w64};
ghost use Rattle.std.specs.Ordering.{nat_cmp};
ghost use Rattle.std.specs.BTreeMap.{get, IsUnchanged};
ghost use Rattle.rv_model.specs.State.{with_word, executed, step, start};
ghost use Rattle.rv_model.specs.Cpu.{access, IsGood};
ghost use Rattle.rv_model.specs.Plain.{word_of, state_of, Leads, IsNew, TouchesNew, NextTouchesNew};
ghost use Rattle.rv_model.specs.Run.{public_of, window};

use crate::{
    Access, Cpu, EXIT_REGISTER, Image, MEMORY_WORDS, OUTPUT_INDEX, OUTPUT_LEN, OUTPUT_WORDS,
    Public, RunFault, StepAnswer, is_store,
};
use rv_word::{Instr, decode};
use std::alloc::{AllocError, Global};
use std::collections::BTreeMap;
use std::marker::Model;

/// A machine that runs an image step by step. It keeps the doublewords that were written in an ordered map.
#[derive(Drop)]
pub struct PlainCpu<'a> {
    image: &'a Image,
    cpu: Cpu,
    words: BTreeMap<u32, u64>,
}

impl<'a> Model for PlainCpu<'a> {
    ghost use Rattle.rv_model.specs.Plain.{Plain};

    ghost Value = { Plain };

    ghost view = { λ m. record { image = m.image.now; cpu = m.cpu; words = m.words.entries } };
}

// The doubleword that was written, or the image's.
fn word(image: &Image, words: &BTreeMap<u32, u64>, index: u32) -> u64
    requires { index < MEMORY_WORDS }
    ensures { result ≡ word_of image.now words.now.entries index }
{
    match words.get(&index) {
        Some(word) => *word,
        None => image.word(index),
    }
}

fn set_word(words: &mut BTreeMap<u32, u64>, index: u32, value: u64) -> Result<(), AllocError>
    ensures ok { OnOk result ((initial : ℕ → ℕ) (k : ℕ) → unwrap_or (get nat_cmp words.new k) (initial k) ≡ with_word (λ j. unwrap_or (get nat_cmp words.old j) (initial j)) index value k) }
    ensures err { OnErr result (IsUnchanged words.old words.new) }
    ensures absent { OnErr result (get nat_cmp words.old index ≡ None) }
{
    words.insert(index, value)?;
    Ok(())
}

// Eight bytes of the output.
fn set_bytes(output: &mut [u8; OUTPUT_LEN], at: usize, value: u64)
    requires { at + 8 ≤ OUTPUT_LEN }
    ensures bytes { output.new ≡ take at output.old ++ to_le_bytes w64 value ++ drop (at + 8) output.old }
    ensures long { length output.new ≡ OUTPUT_LEN }
{
    output[at..at + 8].copy_from_slice(&value.to_le_bytes());
}

fn output_window(image: &Image, words: &BTreeMap<u32, u64>) -> [u8; OUTPUT_LEN]
    ensures { result ≡ window (word_of image.now words.now.entries) OUTPUT_WORDS }
{
    let mut output = [0; OUTPUT_LEN];
    for i in 0..OUTPUT_WORDS {
        let value = word(image, words, OUTPUT_INDEX + i);
        set_bytes(&mut output, 8 * i as usize, value);
    }
    output
}

impl<'a> PlainCpu<'a> {
    /// The machine at the start of the image's run.
    pub fn new(alloc: Global, image: &'a Image) -> Self
        ensures image { result.image ≡ image.now }
        ensures start { state_of result ≡ start image.now }
    {
        PlainCpu {
            image,
            cpu: Cpu {
                pc: image.entry,
                x: [0; 32],
            },
            words: BTreeMap::new(alloc),
        }
    }

    /// pc and registers as they are now.
    pub fn cpu(&self) -> Cpu
        ensures { result ≡ self.now.cpu }
    {
        self.cpu
    }

    /// x10 and the output window as they are now.
    pub fn public(&self) -> Public
        ensures { result ≡ public_of (state_of self.now) }
    {
        Public {
            exit: self.cpu.x[EXIT_REGISTER],
            output: output_window(self.image, &self.words),
        }
    }

    // An instruction that makes this access, at a good address.
    fn execute_at(&mut self, instr: &Instr, touch: &Access) -> Result<StepAnswer, AllocError>
        requires access { access instr.now (state_of self.old) ≡ Some touch.now }
        requires good { IsGood touch.now }
        ensures ok { IfOk result (λ answer. Leads (executed instr.now (state_of self.old)) answer self.old self.new) }
        ensures err { OnErr result (self.new ≡ self.old) }
        ensures absent { OnErr result (IsNew self.old touch.now) }
    {
        let index = touch.index();
        let old = word(self.image, &self.words, index);
        if is_store(instr) {
            set_word(&mut self.words, index, touch.result(old))?;
            Ok(self.cpu.apply(instr, old))
        } else {
            Ok(self.cpu.apply(instr, old))
        }
    }

    fn execute(&mut self, instr: &Instr) -> Result<StepAnswer, AllocError>
        ensures ok { IfOk result (λ answer. Leads (executed instr.now (state_of self.old)) answer self.old self.new) }
        ensures err { OnErr result (self.new ≡ self.old) }
        ensures absent { OnErr result (TouchesNew self.old instr.now) }
    {
        let Some(touch) = self.cpu.access(instr) else {
            return Ok(self.cpu.apply(instr, 0));
        };
        if !touch.is_good() {
            return Ok(self.cpu.apply(instr, 0));
        }
        self.execute_at(instr, &touch)
    }

    /// One step. After Halt and Fault, and where memory is wanting, the machine is as before.
    #[tactic(auto, unfolding(crate::specs::State::step))]
    pub fn step(&mut self) -> Result<StepAnswer, AllocError>
        ensures ok { IfOk result (λ answer. Leads (step self.old.image (state_of self.old)) answer self.old self.new) }
        ensures err { OnErr result (self.new ≡ self.old) }
        // A step takes memory only for a doubleword that it is the first to write.
        ensures absent { OnErr result (NextTouchesNew self.old) }
    {
        let pc = self.cpu.pc;
        match self.image.fetch(pc) {
            None => Ok(StepAnswer::Fault(RunFault::BadPc(pc))),
            Some(word) => match decode(word) {
                None => Ok(StepAnswer::Fault(RunFault::Illegal(pc, word))),
                Some(instr) => self.execute(&instr),
            },
        }
    }
}
