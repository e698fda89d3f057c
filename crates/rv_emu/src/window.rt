//! What a run publishes.
ghost use Rattle.std.specs.Prelude.{◌≡◌, ◌+◌, ◌≤◌, ◌++◌, length, take, drop};
ghost use Rattle.std.specs.Int.{to_le_bytes, w64};
ghost use Rattle.rv_model.specs.Run.{public_of, window};
ghost use Rattle.mem_pages.specs.Memory.{word_of};
ghost use Rattle.rv_emu.specs.Emulator.{state_of};

use mem_pages::Memory;
use rv_model::{Cpu, EXIT_REGISTER, OUTPUT_INDEX, OUTPUT_LEN, OUTPUT_WORDS, Public};

// Eight bytes of the output.
fn set_bytes(output: &mut [u8; OUTPUT_LEN], at: usize, value: u64)
    requires { at + 8 ≤ OUTPUT_LEN }
    ensures bytes { output.new ≡ take at output.old ++ to_le_bytes w64 value ++ drop (at + 8) output.old }
    ensures long { length output.new ≡ OUTPUT_LEN }
{
    output[at..at + 8].copy_from_slice(&value.to_le_bytes());
}

fn output_window(memory: &Memory) -> [u8; OUTPUT_LEN]
    ensures { result ≡ window (word_of memory.now) OUTPUT_WORDS }
{
    let mut output = [0; OUTPUT_LEN];
    for i in 0..OUTPUT_WORDS {
        let value = memory.word(OUTPUT_INDEX + i);
        set_bytes(&mut output, 8 * i as usize, value);
    }
    output
}

/// x10 and the output window.
pub fn public(cpu: &Cpu, memory: &Memory) -> Public
    ensures { result ≡ public_of (state_of cpu.now memory.now) }
{
    Public {
        exit: cpu.x[EXIT_REGISTER],
        output: output_window(memory),
    }
}
