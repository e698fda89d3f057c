//! The line that reports a refusal.
ghost use Rattle.std.specs.Prelude.{◌≡◌, ◌++◌, ◌∷◌, [], IfOk, OnOk, decimal, codes};
ghost use Rattle.zk_words.specs.Lines.{line_of, elf_text, fault_text, tab_text, pil_text, broken_text, tuple_text, after_first, numbers, HasLine};

use crate::{Status, Which};
use elf_load::ElfErr;
use itoa::Buffer;
use pil_text::{PilErr, PilKind};
use row_check::Broken;
use rv_model::RunFault;
use std::alloc::{AllocError, Global};
use tab_file::{TabErr, TabKind};

// Writes a number behind a space.
fn push_number(text: &mut Vec<u8>, n: u64) -> Result<(), AllocError>
    ensures { OnOk result (text.new.items ≡ text.old.items ++ codes " " ++ decimal n) }
{
    let mut buffer = Buffer::new();
    text.push(b' ')?;
    text.extend_from_slice(buffer.format(n).as_bytes())
}

// Writes numbers, each behind a space.
fn push_numbers(text: &mut Vec<u8>, values: &[u64]) -> Result<(), AllocError>
    ensures { OnOk result (text.new.items ≡ text.old.items ++ numbers values.now) }
{
    for &n in values {
        push_number(text, n)?;
    }
    Ok(())
}

// A line: what is refused, the refusal's name, and its numbers.
fn line(alloc: Global, what: &str, name: &str, values: &[u64]) -> Result<Vec<u8>, AllocError>
    ensures { IfOk result (λ text. text.items ≡ what.now ++ name.now ++ numbers values.now ++ codes "\n") }
{
    let mut text = Vec::from_slice(alloc, what.as_bytes())?;
    text.extend_from_slice(name.as_bytes())?;
    push_numbers(&mut text, values)?;
    text.push(b'\n')?;
    Ok(text)
}

fn elf_line(alloc: Global, e: ElfErr) -> Result<Vec<u8>, AllocError>
    ensures { IfOk result (λ text. text.items ≡ codes "bad elf " ++ elf_text e ++ codes "\n") }
{
    let what = "bad elf ";
    match e {
        ElfErr::Short(length) => line(alloc, what, "Short", &[length]),
        ElfErr::BadMagic => line(alloc, what, "BadMagic", &[]),
        ElfErr::NotElf64Le => line(alloc, what, "NotElf64Le", &[]),
        ElfErr::NotExec(kind) => line(alloc, what, "NotExec", &[u64::from(kind)]),
        ElfErr::NotRiscv(machine) => line(alloc, what, "NotRiscv", &[u64::from(machine)]),
        ElfErr::BadPhdrs(i) => line(alloc, what, "BadPhdrs", &[u64::from(i)]),
        ElfErr::NotStatic(i) => line(alloc, what, "NotStatic", &[u64::from(i)]),
        ElfErr::FilePart(i) => line(alloc, what, "FilePart", &[u64::from(i)]),
        ElfErr::OutOfRange(i) => line(alloc, what, "OutOfRange", &[u64::from(i)]),
        ElfErr::Overlap(i, j) => line(alloc, what, "Overlap", &[u64::from(i), u64::from(j)]),
        ElfErr::WindowClash(i) => line(alloc, what, "WindowClash", &[u64::from(i)]),
        ElfErr::TooMuchData(bytes) => line(alloc, what, "TooMuchData", &[bytes]),
        ElfErr::EntryOutside(entry) => line(alloc, what, "EntryOutside", &[entry]),
        ElfErr::NoMemory => line(alloc, what, "NoMemory", &[]),
    }
}

fn fault_line(alloc: Global, fault: RunFault) -> Result<Vec<u8>, AllocError>
    ensures { IfOk result (λ text. text.items ≡ codes "run fault " ++ fault_text fault ++ codes "\n") }
{
    let what = "run fault ";
    match fault {
        RunFault::BadPc(pc) => line(alloc, what, "BadPc", &[pc]),
        RunFault::Illegal(pc, word) => line(alloc, what, "Illegal", &[pc, u64::from(word)]),
        RunFault::Break(pc) => line(alloc, what, "Break", &[pc]),
        RunFault::BadCall(pc, number) => line(alloc, what, "BadCall", &[pc, number]),
        RunFault::Misaligned(pc, address) => line(alloc, what, "Misaligned", &[pc, address]),
        RunFault::BadAddress(pc, address) => line(alloc, what, "BadAddress", &[pc, address]),
        RunFault::BadTarget(pc, target) => line(alloc, what, "BadTarget", &[pc, target]),
    }
}

fn tables_line(alloc: Global, e: TabErr) -> Result<Vec<u8>, AllocError>
    ensures { IfOk result (λ text. text.items ≡ codes "bad tables " ++ tab_text e.kind ++ numbers (e.at ∷ []) ++ codes "\n") }
{
    let name = match e.kind {
        TabKind::Short => "Short",
        TabKind::BadMagic => "BadMagic",
        TabKind::BadVersion => "BadVersion",
        TabKind::BadProfile => "BadProfile",
        TabKind::BadAir => "BadAir",
        TabKind::NoMain => "NoMain",
        TabKind::NotOneOut => "NotOneOut",
        TabKind::TooMany => "TooMany",
        TabKind::BadOrder => "BadOrder",
        TabKind::BadShape => "BadShape",
        TabKind::NotCanonical => "NotCanonical",
        TabKind::Trailing => "Trailing",
        TabKind::NoMemory => "NoMemory",
    };
    line(alloc, "bad tables ", name, &[e.at])
}

fn pil_line(alloc: Global, e: PilErr) -> Result<Vec<u8>, AllocError>
    ensures { IfOk result (λ text. text.items ≡ codes "bad pil " ++ pil_text e.kind ++ numbers (e.at ∷ []) ++ codes "\n") }
{
    let name = match e.kind {
        PilKind::BadByte => "BadByte",
        PilKind::NumberTooLarge => "NumberTooLarge",
        PilKind::Unexpected => "Unexpected",
        PilKind::TooDeep => "TooDeep",
        PilKind::Repeated => "Repeated",
        PilKind::UnknownName => "UnknownName",
        PilKind::BadRow => "BadRow",
        PilKind::Mixed => "Mixed",
        PilKind::WrongWidth => "WrongWidth",
        PilKind::CyclicPol => "CyclicPol",
        PilKind::DoubleMark => "DoubleMark",
        PilKind::NoMemory => "NoMemory",
    };
    line(alloc, "bad pil ", name, &[e.at])
}

// Writes the numbers of a tuple.
fn push_tuple(text: &mut Vec<u8>, tuple: &[u64]) -> Result<(), AllocError>
    ensures { OnOk result (text.new.items ≡ text.old.items ++ tuple_text tuple.now) }
{
    match tuple {
        [first, others @ ..] => {
            push_decimal(text, *first)?;
            push_others(text, others)
        }
        [] => Ok(()),
    }
}

// Writes numbers, each behind a comma.
fn push_others(text: &mut Vec<u8>, values: &[u64]) -> Result<(), AllocError>
    ensures { OnOk result (text.new.items ≡ text.old.items ++ after_first values.now) }
{
    for &n in values {
        text.push(b',')?;
        push_decimal(text, n)?;
    }
    Ok(())
}

// Writes a number.
fn push_decimal(text: &mut Vec<u8>, n: u64) -> Result<(), AllocError>
    ensures { OnOk result (text.new.items ≡ text.old.items ++ decimal n) }
{
    text.extend_from_slice(Buffer::new().format(n).as_bytes())
}

// Writes a word and a number behind it.
fn push_named(text: &mut Vec<u8>, name: &str, n: u64) -> Result<(), AllocError>
    ensures { OnOk result (text.new.items ≡ text.old.items ++ name.now ++ numbers (n ∷ [])) }
{
    text.extend_from_slice(name.as_bytes())?;
    push_number(text, n)
}

fn broken_line(alloc: Global, broken: &Broken) -> Result<Vec<u8>, AllocError>
    ensures { IfOk result (λ text. text.items ≡ codes "broken line " ++ broken_text broken.now ++ codes "\n") }
{
    let mut text = Vec::from_slice(alloc, b"broken line ")?;
    match broken {
        Broken::At {
            line,
            instance,
            row,
        } => {
            push_decimal(&mut text, u64::from(*line))?;
            push_named(&mut text, " instance", u64::from(*instance))?;
            push_named(&mut text, " row", u64::from(*row))?;
        }
        Broken::Counts {
            line,
            tuple,
            left,
            right,
        } => {
            push_decimal(&mut text, u64::from(*line))?;
            text.extend_from_slice(b" tuple ")?;
            push_tuple(&mut text, tuple.as_slice())?;
            push_named(&mut text, " left", *left)?;
            push_named(&mut text, " right", *right)?;
        }
    }
    text.push(b'\n')?;
    Ok(text)
}

/// The line that reports how a command ended, its line feed with it, where it has one.
pub fn status_line(alloc: Global, status: &Status) -> Result<Vec<u8>, AllocError>
    requires { HasLine status.now }
    ensures { IfOk result (λ text. text.items ≡ line_of status.now) }
{
    match status {
        Status::Broken(broken) => broken_line(alloc, broken),
        Status::BadWords => line(alloc, "bad words", "", &[]),
        Status::BadElf(e) => elf_line(alloc, *e),
        Status::RunFault(fault) => fault_line(alloc, *fault),
        Status::StepLimit(steps) => line(alloc, "step limit", "", &[u64::from(*steps)]),
        Status::BadTables(e) => tables_line(alloc, *e),
        Status::BadPil(e) => pil_line(alloc, *e),
        Status::TooLarge(Which::Elf) => line(alloc, "too large ", "elf", &[]),
        Status::TooLarge(Which::Input) => line(alloc, "too large ", "input", &[]),
        Status::TooLarge(Which::Pil) => line(alloc, "too large ", "pil", &[]),
        Status::TooLarge(Which::Tables) => line(alloc, "too large ", "tables", &[]),
        Status::Done | Status::HostFault | Status::NoMemory => unreachable!(),
    }
}
