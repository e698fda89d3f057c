//! The tests of the file header (System V gABI, "ELF Header").
ghost use Rattle.std.specs.Prelude.{◌≡◌, ◌≤◌, length, OnOk, IfErr};
ghost use Rattle.elf_load.specs.Refusal.{Refused};
ghost use Rattle.elf_load.specs.Progress.{PassesFirst};

use crate::error::ElfErr;
use crate::fields::u16_at;

const HEADER_LEN: usize = 64;

const MAGIC: [u8; 4] = [0x7F, b'E', b'L', b'F'];

const ELFCLASS64: u8 = 2;

const ELFDATA2LSB: u8 = 1;

const EV_CURRENT: u8 = 1;

const ET_EXEC: u16 = 2;

const EM_RISCV: u16 = 243;

pub(crate) fn check_file_header(file: &[u8]) -> Result<(), ElfErr>
    ensures whole { OnOk result (64 ≤ length file.now) }
    ensures ok { OnOk result (PassesFirst 5 file.now) }
    ensures err { IfErr result (Refused file.now) }
{
    if file.len() < HEADER_LEN {
        return Err(ElfErr::Short(file.len() as u64));
    }
    if !file.starts_with(&MAGIC) {
        return Err(ElfErr::BadMagic);
    }
    if file[4] != ELFCLASS64 || file[5] != ELFDATA2LSB || file[6] != EV_CURRENT {
        return Err(ElfErr::NotElf64Le);
    }
    let e_type = u16_at(file, 16);
    if e_type != ET_EXEC {
        return Err(ElfErr::NotExec(e_type));
    }
    let e_machine = u16_at(file, 18);
    if e_machine != EM_RISCV {
        return Err(ElfErr::NotRiscv(e_machine));
    }
    Ok(())
}
