//! What a row of Main is made of, and its cells.
ghost use Rattle.std.specs.Prelude.{◌≡◌, ◌≤◌};
ghost use Rattle.step_rows.specs.Words.{low, high};
ghost use Rattle.step_rows.specs.MainRow.{cleared_bit};

use min_trace::StepRecord;
use row_columns::Cell;
use run_rows::FromStep;
use rv_word::Instr;
use step_rows::RomRow;

/// What a step did: what Rom tells of its instruction, with the values of rs1, rs2 and the operation, and its access
/// to memory, all zeros where it makes none.
#[derive(Clone, Copy, Debug, PartialEq, Eq)]
pub struct Done {
    pub pc: u32,
    pub rom: RomRow,
    /// rs1's and rs2's values.
    pub a: u64,
    pub s: u64,
    /// The operation's value and flag.
    pub c: u64,
    pub flag: bool,
    /// The bit that JALR clears in its target.
    pub bit: u32,
    /// The doubleword's number, and the byte within it at which the access begins.
    pub index: u32,
    pub off: u8,
    /// The doubleword before the step.
    pub old: u64,
    /// What a load reads, or the doubleword that a store leaves.
    pub new: u64,
}

#[inline(always)]
fn cleared_bit(instr: &Instr, c: u64) -> u32
    ensures { result ≡ cleared_bit instr.now c }
{
    match instr {
        Instr::Jalr { .. } => (c & 1) as u32,
        _ => 0,
    }
}

impl FromStep for Done {
    ghost use Rattle.main_rows.specs.Cells.{done};

    ghost taken = { done };

    #[inline(always)]
    fn from_step(step: &StepRecord) -> Done {
        let (index, off, old, new) = match step.mem {
            Some(act) => (act.index, act.off, act.old, act.result),
            None => (0, 0, 0, 0),
        };
        Done {
            pc: (step.pc & 0xffff_ffff) as u32,
            rom: RomRow::of(step.pc, step.instr),
            a: step.a,
            s: step.s,
            c: step.c,
            flag: step.flag,
            bit: cleared_bit(&step.instr, step.c),
            index,
            off,
            old,
            new,
        }
    }
}

/// A column of Main.
#[derive(Clone, Copy, Debug, PartialEq, Eq)]
pub enum MainCell {
    Selector,
    Pc,
    Rs1,
    Rs2,
    Rd,
    Op,
    Ilo,
    Ihi,
    Klo,
    Khi,
    Jt,
    KindNumber,
    Bi,
    Wr,
    Ld,
    St,
    Jr,
    Jp,
    Br,
    Inv,
    Halt,
    Uw,
    FirstLow,
    FirstHigh,
    SecondLow,
    SecondHigh,
    ValueLow,
    ValueHigh,
    Flag,
    Bit,
    IndexLow,
    IndexHigh,
    Off,
    OldLow,
    OldHigh,
    NewLow,
    NewHigh,
}

#[inline(always)]
#[tactic(auto, unfolding(step_rows::specs::Words::low))]
fn low(v: u64) -> u64
    ensures value { result ≡ low v }
    ensures below { result ≤ 4294967295 }
{
    v & 0xffff_ffff
}

#[inline(always)]
#[tactic(auto, unfolding(step_rows::specs::Words::high))]
fn high(v: u64) -> u64
    ensures value { result ≡ high v }
    ensures below { result ≤ 4294967295 }
{
    v >> 32
}

impl Cell<Done> for MainCell {
    ghost use Rattle.main_rows.specs.Cells.{cell_of};

    ghost value = { cell_of };

    #[inline(always)]
    #[tactic(auto, unfolding(crate::specs::Cells::cell_of))]
    fn of(self, done: &Done) -> u64 {
        match self {
            MainCell::Selector => 1,
            MainCell::Pc => u64::from(done.pc),
            MainCell::Rs1 => u64::from(done.rom.rs1),
            MainCell::Rs2 => u64::from(done.rom.rs2),
            MainCell::Rd => u64::from(done.rom.rd),
            MainCell::Op => u64::from(done.rom.op),
            MainCell::Ilo => u64::from(done.rom.ilo),
            MainCell::Ihi => u64::from(done.rom.ihi),
            MainCell::Klo => u64::from(done.rom.klo),
            MainCell::Khi => u64::from(done.rom.khi),
            MainCell::Jt => u64::from(done.rom.jt),
            MainCell::KindNumber => u64::from(done.rom.kind),
            MainCell::Bi => u64::from(done.rom.bi),
            MainCell::Wr => u64::from(done.rom.wr),
            MainCell::Ld => u64::from(done.rom.ld),
            MainCell::St => u64::from(done.rom.st),
            MainCell::Jr => u64::from(done.rom.jr),
            MainCell::Jp => u64::from(done.rom.jp),
            MainCell::Br => u64::from(done.rom.br),
            MainCell::Inv => u64::from(done.rom.inv),
            MainCell::Halt => u64::from(done.rom.halt),
            MainCell::Uw => u64::from(done.rom.uw),
            MainCell::FirstLow => low(done.a),
            MainCell::FirstHigh => high(done.a),
            MainCell::SecondLow => low(done.s),
            MainCell::SecondHigh => high(done.s),
            MainCell::ValueLow => low(done.c),
            MainCell::ValueHigh => high(done.c),
            MainCell::Flag => u64::from(done.flag),
            MainCell::Bit => u64::from(done.bit),
            MainCell::IndexLow => u64::from(done.index & 0xffff),
            MainCell::IndexHigh => u64::from(done.index >> 16),
            MainCell::Off => u64::from(done.off),
            MainCell::OldLow => low(done.old),
            MainCell::OldHigh => high(done.old),
            MainCell::NewLow => low(done.new),
            MainCell::NewHigh => high(done.new),
        }
    }
}

/// The columns in order.
pub const CELLS: [MainCell; 37] = [
    MainCell::Selector,
    MainCell::Pc,
    MainCell::Rs1,
    MainCell::Rs2,
    MainCell::Rd,
    MainCell::Op,
    MainCell::Ilo,
    MainCell::Ihi,
    MainCell::Klo,
    MainCell::Khi,
    MainCell::Jt,
    MainCell::KindNumber,
    MainCell::Bi,
    MainCell::Wr,
    MainCell::Ld,
    MainCell::St,
    MainCell::Jr,
    MainCell::Jp,
    MainCell::Br,
    MainCell::Inv,
    MainCell::Halt,
    MainCell::Uw,
    MainCell::FirstLow,
    MainCell::FirstHigh,
    MainCell::SecondLow,
    MainCell::SecondHigh,
    MainCell::ValueLow,
    MainCell::ValueHigh,
    MainCell::Flag,
    MainCell::Bit,
    MainCell::IndexLow,
    MainCell::IndexHigh,
    MainCell::Off,
    MainCell::OldLow,
    MainCell::OldHigh,
    MainCell::NewLow,
    MainCell::NewHigh,
];
