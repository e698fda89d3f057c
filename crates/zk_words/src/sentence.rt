//! What a status says to people.
ghost use Rattle.std.specs.Prelude.{◌≡◌, Some};
ghost use Rattle.zk_words.specs.Sentences.{sentence_of, at_pc, of_line, fault_sentence, broken_sentence, file_name};

use crate::{Status, Which};
use row_check::Broken;
use rv_model::RunFault;
use std::fmt::{self, Display, Formatter};

// What is wrong at a pc, and the number that shows it.
#[derive(Clone, Copy, Drop)]
struct AtPc {
    pc: u64,
    what: &'static str,
    number: u64,
}

// What is wrong with a line, and the two numbers that show it.
#[derive(Clone, Copy, Drop)]
struct OfLine {
    line: u32,
    what: &'static str,
    first: u64,
    between: &'static str,
    second: u64,
}

// The sentence of a fault.
#[derive(Clone, Copy, Drop)]
struct FaultSentence(RunFault);

// The sentence of a broken line.
#[derive(Clone, Copy, Drop)]
struct BrokenSentence<'a>(&'a Broken);

impl Display for AtPc {
    ghost output = { λ sentence. Some (at_pc sentence.pc sentence.what.now sentence.number) };

    fn fmt<W: fmt::Write>(&self, f: &mut Formatter<W>) -> fmt::Result {
        let (pc, what, number) = (self.pc, self.what, self.number);
        write!(f, "at pc {pc}{what}{number}")
    }
}

impl Display for OfLine {
    ghost output = { λ sentence. Some (of_line sentence.line sentence.what.now sentence.first sentence.between.now sentence.second) };

    fn fmt<W: fmt::Write>(&self, f: &mut Formatter<W>) -> fmt::Result {
        let (line, what, first) = (self.line, self.what, self.first);
        let (between, second) = (self.between, self.second);
        write!(f, "line {line}{what}{first}{between}{second}")
    }
}

impl Display for FaultSentence {
    ghost output = { λ sentence. Some (fault_sentence sentence.0) };

    fn fmt<W: fmt::Write>(&self, f: &mut Formatter<W>) -> fmt::Result {
        match self.0 {
            RunFault::BadPc(pc) => write!(f, "no executable word is at pc {pc}"),
            RunFault::Illegal(pc, word) => {
                let what = " the word is no instruction: ";
                AtPc {
                    pc,
                    what,
                    number: u64::from(word),
                }
                .fmt(f)
            }
            RunFault::Break(pc) => write!(f, "EBREAK is at pc {pc}"),
            RunFault::BadCall(pc, number) => {
                let what = " the number of the call is not 93 but ";
                AtPc { pc, what, number }.fmt(f)
            }
            RunFault::Misaligned(pc, number) => {
                let what = " the address is no multiple of the width of the access: ";
                AtPc { pc, what, number }.fmt(f)
            }
            RunFault::BadAddress(pc, number) => {
                let what = " the address is past the end of memory: ";
                AtPc { pc, what, number }.fmt(f)
            }
            RunFault::BadTarget(pc, number) => {
                let what = " the target is no multiple of 4: ";
                AtPc { pc, what, number }.fmt(f)
            }
        }
    }
}

impl Display for BrokenSentence<'_> {
    ghost output = { λ sentence. Some (broken_sentence sentence.0.now) };

    fn fmt<W: fmt::Write>(&self, f: &mut Formatter<W>) -> fmt::Result {
        match self.0 {
            Broken::At {
                line,
                instance,
                row,
            } => {
                let sentence = OfLine {
                    line: *line,
                    what: " does not hold in instance ",
                    first: u64::from(*instance),
                    between: " at row ",
                    second: u64::from(*row),
                };
                sentence.fmt(f)
            }
            Broken::Counts {
                line,
                tuple: _,
                left,
                right,
            } => {
                let sentence = OfLine {
                    line: *line,
                    what: " does not hold: the counts of a tuple are ",
                    first: *left,
                    between: " on the left and on the right ",
                    second: *right,
                };
                sentence.fmt(f)
            }
        }
    }
}

// What people call the file.
fn name_of(which: Which) -> &'static str
    ensures { result.now ≡ file_name which }
{
    match which {
        Which::Elf => "ELF file",
        Which::Input => "input",
        Which::Pil => "constraint text",
        Which::Tables => "table file",
    }
}

/// One sentence, without its full stop.
impl Display for Status {
    ghost output = { sentence_of };

    fn fmt<W: fmt::Write>(&self, f: &mut Formatter<W>) -> fmt::Result {
        match self {
            Status::Done => write!(f, "the work is done"),
            Status::Broken(broken) => write!(f, "{}", BrokenSentence(broken)),
            Status::BadWords => write!(
                f,
                "the commands are run ELF INPUT STEPS, witness ELF INPUT TABLES STEPS WORKERS, check ELF INPUT TABLES, pil PILFILE TABLES, machine, machine wide and demo NUMBER KIND SIZE"
            ),
            Status::BadElf(e) => write!(f, "the ELF file is refused: {e}"),
            Status::RunFault(fault) => write!(f, "the run faults: {}", FaultSentence(*fault)),
            Status::StepLimit(steps) => write!(
                f,
                "the run neither halts nor faults within its limit of steps: {steps}"
            ),
            Status::BadTables(e) => write!(f, "the table file is refused: {e}"),
            Status::BadPil(e) => write!(f, "the constraint text is refused: {e}"),
            Status::TooLarge(which) => {
                write!(f, "the file is larger than its limit: {}", name_of(*which))
            }
            Status::HostFault => write!(
                f,
                "a file could not be opened, created, read or written, or the report could not be written"
            ),
            Status::NoMemory => write!(f, "memory ran out"),
        }
    }
}

#[cfg(test)]
mod tests {
    use super::*;
    use elf_load::ElfErr;
    use pil_text::{PilErr, PilKind};
    use std::test::Fail;
    use tab_file::{TabErr, TabKind};

    #[test]
    fn a_refusal_says_what_its_error_says(rt: HostRuntime) -> Result<(), Fail> {
        let alloc = rt.alloc();
        for (status, sentence) in [
            (
                Status::BadElf(ElfErr::Short(63)),
                "the ELF file is refused: 63 bytes are no ELF file",
            ),
            (
                Status::BadTables(TabErr {
                    kind: TabKind::Short,
                    at: 12,
                }),
                "the table file is refused: the file ends inside an item, at byte 12",
            ),
            (
                Status::BadPil(PilErr {
                    kind: PilKind::UnknownName,
                    at: 34,
                }),
                "the constraint text is refused: the name isn't declared at 34",
            ),
            (
                Status::RunFault(RunFault::BadTarget(65660, 65666)),
                "the run faults: at pc 65660 the target is no multiple of 4: 65666",
            ),
            (
                Status::Broken(Broken::At {
                    line: 26,
                    instance: 0,
                    row: 40,
                }),
                "line 26 does not hold in instance 0 at row 40",
            ),
            (
                Status::TooLarge(Which::Pil),
                "the file is larger than its limit: constraint text",
            ),
        ] {
            assert_eq!(rt; status.to_string(alloc)?.as_str(), sentence);
        }
        Ok(())
    }
}
