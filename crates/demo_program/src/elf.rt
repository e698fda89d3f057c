//! The least ELF file of some instructions.
ghost use Rattle.std.specs.Prelude.{◌≡◌, ◌<◌, ◌≤◌, ◌^◌, ◌++◌, All, length, OnOk, IfOk};
ghost use Rattle.demo_program.specs.Demo.{words_of, HasWord};
ghost use Rattle.demo_program.specs.Tiny.{half, word, long, file_header, program_header, tiny};

use rv_word::{Instr, encode};
use std::alloc::{AllocError, Global};

/// Where the words are in memory, which is where the run begins.
const START: u64 = 0x1_0078;

/// The magic, 64 bits, the low byte first, version 1.
const IDENT: [u8; 16] = [0x7F, 0x45, 0x4C, 0x46, 2, 1, 1, 0, 0, 0, 0, 0, 0, 0, 0, 0];

fn push_half(file: &mut Vec<u8>, number: u16) -> Result<(), AllocError>
    ensures { OnOk result (file.new.items ≡ file.old.items ++ half number) }
{
    file.extend_from_slice(&number.to_le_bytes())
}

fn push_word(file: &mut Vec<u8>, number: u32) -> Result<(), AllocError>
    ensures { OnOk result (file.new.items ≡ file.old.items ++ word number) }
{
    file.extend_from_slice(&number.to_le_bytes())
}

fn push_long(file: &mut Vec<u8>, number: u64) -> Result<(), AllocError>
    ensures { OnOk result (file.new.items ≡ file.old.items ++ long number) }
{
    file.extend_from_slice(&number.to_le_bytes())
}

fn file_header(alloc: Global) -> Result<Vec<u8>, AllocError>
    ensures { IfOk result (λ v. v.items ≡ file_header) }
{
    let mut header = Vec::from_slice(alloc, &IDENT)?;
    push_half(&mut header, 2)?; // e_type: it may be executed
    push_half(&mut header, 243)?; // e_machine: RISC-V
    push_word(&mut header, 1)?; // e_version
    push_long(&mut header, START)?; // e_entry
    push_long(&mut header, 64)?; // e_phoff
    push_long(&mut header, 0)?; // e_shoff
    push_word(&mut header, 0)?; // e_flags
    push_half(&mut header, 64)?; // e_ehsize
    push_half(&mut header, 56)?; // e_phentsize
    push_half(&mut header, 1)?; // e_phnum
    push_half(&mut header, 0)?; // e_shentsize
    push_half(&mut header, 0)?; // e_shnum
    push_half(&mut header, 0)?; // e_shstrndx
    Ok(header)
}

fn program_header(alloc: Global, size: u64) -> Result<Vec<u8>, AllocError>
    ensures { IfOk result (λ v. v.items ≡ program_header size) }
{
    let mut header = Vec::new(alloc);
    push_word(&mut header, 1)?; // p_type: loaded
    push_word(&mut header, 5)?; // p_flags: read and executed
    push_long(&mut header, 120)?; // p_offset
    push_long(&mut header, START)?; // p_vaddr
    push_long(&mut header, START)?; // p_paddr
    push_long(&mut header, size)?; // p_filesz
    push_long(&mut header, size)?; // p_memsz
    push_long(&mut header, 4)?; // p_align
    Ok(header)
}

/// The file whose one segment has the instructions' words.
pub(crate) fn tiny(alloc: Global, instructions: &[Instr]) -> Result<Vec<u8>, AllocError>
    requires words { All HasWord instructions.now }
    requires few { length instructions.now < 2 ^ 32 }
    ensures { IfOk result (λ v. v.items ≡ tiny (words_of instructions.now)) }
{
    let mut file = file_header(alloc)?;
    file.extend_from_slice(&program_header(alloc, 4 * instructions.len() as u64)?)?;
    for instruction in instructions {
        push_word(&mut file, encode(instruction))?;
    }
    Ok(file)
}
