//! The words of the command line.
ghost use Rattle.std.specs.Prelude.{◌≡◌, ◌⊎◌, ℕ, ◌+◌, ◌<◌, ◌≤◌, ◌^◌, List, [], ◌∷◌, IfSome, Some, codes, decimal};
ghost use Rattle.demo_program.specs.declared.kind.DemoKind.{DemoKind as Kind};
ghost use Rattle.zk_words.specs.Words.{Command as Asked, Reads, IsAnswer, texts, kind_word, IsNumber};

use demo_program::DemoKind;
use gold::Profile;
use itoa::Buffer;

/// At most so many workers.
pub const MOST_WORKERS: u32 = 64;

/// A demo program draws at most so many instructions.
const MOST_DRAWN: u32 = 100_000;

/// What the words ask for, with the names of its files.
#[derive(Clone, Copy, Debug, PartialEq, Eq)]
pub enum Command<'a> {
    /// `run ELF INPUT STEPS`
    Run {
        elf: &'a str,
        input: &'a str,
        steps: u32,
    },
    /// `witness ELF INPUT TABLES STEPS WORKERS`
    Witness {
        elf: &'a str,
        input: &'a str,
        tables: &'a str,
        steps: u32,
        workers: u32,
    },
    /// `check ELF INPUT TABLES`
    Check {
        elf: &'a str,
        input: &'a str,
        tables: &'a str,
    },
    /// `pil PILFILE TABLES`
    Pil {
        text: &'a str,
        tables: &'a str,
    },
    /// `machine` is Small's, `machine wide` is Wide's.
    Machine {
        profile: Profile,
    },
    /// `demo NUMBER KIND SIZE`
    Demo {
        number: u64,
        kind: DemoKind,
        size: u32,
    },
}

// The number that the text is the decimal form of.
fn number(text: &str) -> Option<u64>
    ensures found { IfSome result (λ n. text.now ≡ decimal n) }
    ensures only { (n : ℕ) → n < 2 ^ 64 → text.now ≡ decimal n → result ≡ Some n }
{
    let parsed = text.parse::<u64>();
    match parsed {
        Ok(n) => {
            let mut buffer = Buffer::new();
            if buffer.format(n) == text {
                Some(n)
            } else {
                None
            }
        }
        Err(_) => None,
    }
}

// The same, where it lies from least to most.
fn number_from(least: u32, most: u32, text: &str) -> Option<u32>
    ensures found { IfSome result (IsNumber least (most + 1) text.now) }
    ensures only { (n : ℕ) → IsNumber least (most + 1) text.now n → result ≡ Some n }
{
    match number(text) {
        Some(n) if u64::from(least) <= n && n <= u64::from(most) => Some(n as u32),
        _ => None,
    }
}

// The kind of demo program that a word names.
fn kind_of(text: &str) -> Option<DemoKind>
    ensures found { IfSome result (λ kind. text.now ≡ kind_word kind) }
    ensures only { (kind : Kind) → text.now ≡ kind_word kind → result ≡ Some kind }
{
    match text {
        "alu" => Some(DemoKind::Alu),
        "mul" => Some(DemoKind::Mul),
        "mem" => Some(DemoKind::Mem),
        _ => None,
    }
}

// `demo` with these words.
fn demo<'a>(text: &'a str, kind: &'a str, size: &'a str) -> Option<Command<'a>>
    ensures { IsAnswer (codes "demo" ∷ text.now ∷ kind.now ∷ size.now ∷ []) result }
{
    match (
        number(text),
        kind_of(kind),
        number_from(1, MOST_DRAWN, size),
    ) {
        (Some(number), Some(kind), Some(size)) => Some(Command::Demo { number, kind, size }),
        _ => None,
    }
}

// `run` with these words.
fn run<'a>(elf: &'a str, input: &'a str, steps: &'a str) -> Option<Command<'a>>
    ensures { IsAnswer (codes "run" ∷ elf.now ∷ input.now ∷ steps.now ∷ []) result }
{
    match number_from(1, u32::MAX, steps) {
        Some(steps) => Some(Command::Run { elf, input, steps }),
        None => None,
    }
}

// `witness` with these words.
fn witness<'a>(
    elf: &'a str,
    input: &'a str,
    tables: &'a str,
    steps: &'a str,
    workers: &'a str,
) -> Option<Command<'a>>
    ensures { IsAnswer (codes "witness" ∷ elf.now ∷ input.now ∷ tables.now ∷ steps.now ∷ workers.now ∷ []) result }
{
    match (
        number_from(1, u32::MAX, steps),
        number_from(0, MOST_WORKERS, workers),
    ) {
        (Some(steps), Some(workers)) => Some(Command::Witness {
            elf,
            input,
            tables,
            steps,
            workers,
        }),
        _ => None,
    }
}

// The command of one word.
fn of_one<'a>(word: &'a str) -> Option<Command<'a>>
    ensures { IsAnswer (word.now ∷ []) result }
{
    if word == "machine" {
        Some(Command::Machine {
            profile: Profile::Small,
        })
    } else {
        None
    }
}

// The command of two words.
fn of_two<'a>(first: &'a str, second: &'a str) -> Option<Command<'a>>
    ensures { IsAnswer (first.now ∷ second.now ∷ []) result }
{
    if first == "machine" && second == "wide" {
        Some(Command::Machine {
            profile: Profile::Wide,
        })
    } else {
        None
    }
}

// The command of three words.
fn of_three<'a>(first: &'a str, text: &'a str, tables: &'a str) -> Option<Command<'a>>
    ensures { IsAnswer (first.now ∷ text.now ∷ tables.now ∷ []) result }
{
    if first == "pil" {
        Some(Command::Pil { text, tables })
    } else {
        None
    }
}

// The command of four words.
fn of_four<'a>(
    first: &'a str,
    second: &'a str,
    third: &'a str,
    last: &'a str,
) -> Option<Command<'a>>
    ensures { IsAnswer (first.now ∷ second.now ∷ third.now ∷ last.now ∷ []) result }
{
    match first {
        "run" => run(second, third, last),
        "check" => Some(Command::Check {
            elf: second,
            input: third,
            tables: last,
        }),
        "demo" => demo(second, third, last),
        _ => None,
    }
}

// The command of six words.
fn of_six<'a>(
    first: &'a str,
    elf: &'a str,
    input: &'a str,
    tables: &'a str,
    steps: &'a str,
    workers: &'a str,
) -> Option<Command<'a>>
    ensures { IsAnswer (first.now ∷ elf.now ∷ input.now ∷ tables.now ∷ steps.now ∷ workers.now ∷ []) result }
{
    if first == "witness" {
        witness(elf, input, tables, steps, workers)
    } else {
        None
    }
}

/// The command that the words read as, if they read as one.
pub fn read_words<'a>(words: &'a [String]) -> Option<Command<'a>>
    ensures { IsAnswer (texts words.now) result }
{
    match words {
        [word] => of_one(word.as_str()),
        [first, second] => of_two(first.as_str(), second.as_str()),
        [first, text, tables] => of_three(first.as_str(), text.as_str(), tables.as_str()),
        [first, second, third, last] => of_four(
            first.as_str(),
            second.as_str(),
            third.as_str(),
            last.as_str(),
        ),
        [first, elf, input, tables, steps, workers] => of_six(
            first.as_str(),
            elf.as_str(),
            input.as_str(),
            tables.as_str(),
            steps.as_str(),
            workers.as_str(),
        ),
        _ => None,
    }
}

/// Any words read as one command, or as none.
pub fn one_command()
    ensures decided { (words : List (List ℕ)) → ((command : Asked) × Reads words command) ⊎ ((command : Asked) → Reads words command → ⊥) }
    ensures one { (words : List (List ℕ)) (a b : Asked) → Reads words a → Reads words b → a ≡ b }
{}

#[cfg(test)]
mod tests {
    use super::*;
    use std::alloc::{AllocError, Global};
    use std::test::Fail;

    fn words(alloc: Global, line: &str) -> Result<Vec<String>, AllocError> {
        let mut words = Vec::new(alloc);
        for word in line.split('|') {
            words.push(String::from_str(alloc, word)?)?;
        }
        Ok(words)
    }

    #[test]
    fn a_command_has_its_words_and_no_others(rt: HostRuntime) -> Result<(), Fail> {
        let alloc = rt.alloc();
        for (line, elf, input, steps) in [
            ("run|a|b|3", "a", "b", 3),
            ("run|||1", "", "", 1),
            ("run|a b|c|4294967295", "a b", "c", u32::MAX),
        ] {
            let words = words(alloc, line)?;
            assert_eq!(rt;
                read_words(&words),
                Some(Command::Run { elf, input, steps }),
                "at {line}"
            );
        }
        for (line, command) in [
            (
                "pil|a|b",
                Command::Pil {
                    text: "a",
                    tables: "b",
                },
            ),
            (
                "pil||",
                Command::Pil {
                    text: "",
                    tables: "",
                },
            ),
            (
                "pil|pil|pil",
                Command::Pil {
                    text: "pil",
                    tables: "pil",
                },
            ),
            (
                "check|a|b|c",
                Command::Check {
                    elf: "a",
                    input: "b",
                    tables: "c",
                },
            ),
            (
                "machine",
                Command::Machine {
                    profile: Profile::Small,
                },
            ),
            (
                "machine|wide",
                Command::Machine {
                    profile: Profile::Wide,
                },
            ),
            (
                "demo|0|alu|1",
                Command::Demo {
                    number: 0,
                    kind: DemoKind::Alu,
                    size: 1,
                },
            ),
            (
                "demo|18446744073709551615|mem|100000",
                Command::Demo {
                    number: u64::MAX,
                    kind: DemoKind::Mem,
                    size: 100_000,
                },
            ),
            (
                "witness|a|b|c|20|0",
                Command::Witness {
                    elf: "a",
                    input: "b",
                    tables: "c",
                    steps: 20,
                    workers: 0,
                },
            ),
            (
                "witness|a|b|c|1|64",
                Command::Witness {
                    elf: "a",
                    input: "b",
                    tables: "c",
                    steps: 1,
                    workers: 64,
                },
            ),
        ] {
            let words = words(alloc, line)?;
            assert_eq!(rt; read_words(&words), Some(command), "at {line}");
        }
        for line in [
            "",
            "pil",
            "pil|a",
            "pil|a|b|c",
            "Pil|a|b",
            "run",
            "run|a|b",
            "run|a|b|3|x",
            "RUN|a|b|3",
            "run|a|b|0",
            "run|a|b|03",
            "run|a|b|+3",
            "run|a|b|3 ",
            "run|a|b|",
            "run|a|b|4294967296",
            "--help",
            "run|a|b|0x3",
            "run|a|b|-1",
            "check|a|b",
            "machine|small",
            "machine|x",
            "machine|wide|x",
            "witness|a|b|c|20",
            "witness|a|b|c|20|65",
            "witness|a|b|c|20|01",
            "witness|a|b|c|20|4294967296",
            "witness|a|b|c|0|0",
            "witness|a|b|c|20|0|x",
            "demo|1|mul|0",
            "demo|1|mul|100001",
            "demo|01|mul|1",
            "demo|18446744073709551616|mul|1",
            "demo|1|MUL|1",
            "demo|1|mul",
        ] {
            let words = words(alloc, line)?;
            assert_eq!(rt; read_words(&words), None, "at {line}");
        }
        Ok(())
    }
}
