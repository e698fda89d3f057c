//! The program that a command is given: its ELF file, and its input.
ghost use Rattle.std.specs.Prelude.{◌≡◌, ◌≤◌, IfOk, IfErr, IsErrOf};
ghost use Rattle.host_io.specs.Calls.{HasRisen};
ghost use Rattle.zk_top.specs.Parts.{IsOnlyImage, IsRefusal, HasProgram, HasNoProgram};

use crate::files::{file_of, stopped};
use elf_load::{ElfErr, load};
use host_io::Host;
use rv_model::{INPUT_LEN, Image};
use std::alloc::Global;
use zk_words::{Status, Which};

/// An ELF file has at most so many bytes.
const ELF_LIMIT: u64 = 1 << 26;
/// An input has at most so many bytes, since its length stands before it in the input window.
const INPUT_LIMIT: u64 = INPUT_LEN - 8;

// The image of an ELF file, with no input yet.
fn image_of(alloc: Global, file: &[u8]) -> Result<Image, Status>
    ensures only { IfOk result (IsOnlyImage file.now) }
    ensures refused { IfErr result (IsRefusal file.now) }
{
    match load(alloc, file, &[]) {
        Ok(image) => Ok(image),
        Err(ElfErr::NoMemory) => Err(Status::NoMemory),
        Err(e) => Err(Status::BadElf(e)),
    }
}

/// The image of an ELF file with an input, or how a command stops without. The file is tested before the
/// input is opened.
pub fn program_of<H: Host>(
    alloc: Global,
    host: &mut H,
    elf: &str,
    input: &str,
) -> Result<Image, Status>
    ensures told { H.tells host.old → H.tells host.new }
    ensures had { H.tells host.old → IfOk result (λ image. HasProgram elf.now input.now image (H.world host.old) (H.world host.new)) }
    ensures stopped { H.tells host.old → IfErr result (λ status. HasNoProgram elf.now input.now status (H.world host.old) (H.world host.new)) }
    ensures later { H.faults host.old ≤ H.faults host.new }
    ensures no_bad_words { IsErrOf result Status.BadWords → ⊥ }
    ensures fault { IsErrOf result Status.HostFault → HasRisen (H.faults host.old) (H.faults host.new) }
{
    let file = match file_of(alloc, host, elf, ELF_LIMIT) {
        Ok(file) => file,
        Err(e) => return Err(stopped(e, Which::Elf)),
    };
    let image = match image_of(alloc, &file) {
        Ok(image) => image,
        Err(status) => return Err(status),
    };
    match file_of(alloc, host, input, INPUT_LIMIT) {
        Ok(input) => Ok(image.with_input(input)),
        Err(e) => Err(stopped(e, Which::Input)),
    }
}
