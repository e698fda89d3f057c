//! How a command ends.
ghost use Rattle.std.specs.Prelude.{◌≡◌};
ghost use Rattle.zk_words.specs.Lines.{code_of};

use elf_load::ElfErr;
use pil_text::PilErr;
use row_check::Broken;
use rv_model::RunFault;
use tab_file::TabErr;

/// A file that has a limit.
#[derive(Clone, Copy, Debug, PartialEq, Eq)]
pub enum Which {
    Elf,
    Input,
    Pil,
    Tables,
}

/// How a command ends (docs/COMMANDS.md).
#[derive(Debug, Drop)]
pub enum Status {
    /// The command did its work.
    Done,
    /// A line of the constraints doesn't hold of the tables: this one is the first.
    Broken(Broken),
    /// The words read as no command.
    BadWords,
    /// The loader refuses the file: this test is the first that fails.
    BadElf(ElfErr),
    /// The run faults within its limit.
    RunFault(RunFault),
    /// The run neither halts nor faults within this many steps.
    StepLimit(u32),
    /// The table file is refused: this item is the first that fails.
    BadTables(TabErr),
    /// The constraint text is refused.
    BadPil(PilErr),
    /// This file has more bytes than its limit.
    TooLarge(Which),
    /// The host failed, and counted it.
    HostFault,
    /// Memory ran out.
    NoMemory,
}

impl Status {
    /// The exit status of the program.
    pub fn code(&self) -> u8
        ensures { result ≡ code_of self.now }
    {
        match self {
            Status::Done => 0,
            Status::Broken(_) => 1,
            Status::BadWords => 2,
            Status::BadElf(_) => 3,
            Status::RunFault(_) => 4,
            Status::StepLimit(_) => 5,
            Status::BadTables(_) => 6,
            Status::BadPil(_) => 7,
            Status::TooLarge(_) => 8,
            Status::HostFault => 9,
            Status::NoMemory => 10,
        }
    }
}
