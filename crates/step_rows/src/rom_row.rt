//! The row that an instruction has in Rom.
ghost use Rattle.std.specs.Prelude.{◌≡◌};
ghost use Rattle.rv_model.specs.Op.{bits_of};
ghost use Rattle.min_trace.specs.Operands.{compared_by};
ghost use Rattle.step_rows.specs.Words.{low, high, one_if};
ghost use Rattle.step_rows.specs.Rom.{turned, target, writes, blank, with_constant, writing, rom_row};

use rv_model::{CALL_REGISTER, MEMORY_END};
use rv_word::{Cond, Instr, Kind, OpNo, Reg};

/// A row of Rom: its columns but SEL, in their order. It tells a step what the instruction at `pc` is.
/// Those from `bi` on are flags, 0 or 1.
#[derive(Clone, Copy, Debug, PartialEq, Eq)]
pub struct RomRow {
    pub pc: u64,
    /// The registers that are read; x0 where the instruction names none.
    pub rs1: u8,
    pub rs2: u8,
    /// The register that is written; x0 where there is none.
    pub rd: u8,
    /// The operation's number.
    pub op: u8,
    /// The limbs of the operation's second operand, where it is a constant.
    pub ilo: u32,
    pub ihi: u32,
    /// The limbs of the address after JALR.
    pub klo: u32,
    pub khi: u32,
    /// Where JAL or a branch goes; 1 if no instruction can stand there.
    pub jt: u32,
    /// The number of the kind of load or store.
    pub kind: u8,
    /// Whether the second operand is a constant.
    pub bi: u8,
    /// Whether a register is written.
    pub wr: u8,
    /// A load.
    pub ld: u8,
    /// A store.
    pub st: u8,
    /// JALR.
    pub jr: u8,
    /// JAL.
    pub jp: u8,
    /// A branch.
    pub br: u8,
    /// Whether the branch is taken where its comparison's flag is 0.
    pub inv: u8,
    /// ECALL.
    pub halt: u8,
    /// Whether the first operand is the low 32 bits of rs1's value alone.
    pub uw: u8,
}

#[tactic(auto, unfolding(crate::specs::Words::low))]
fn low(v: u64) -> u32
    ensures { result ≡ low v }
{
    (v % (1 << 32)) as u32
}

#[tactic(auto, unfolding(crate::specs::Words::high))]
fn high(v: u64) -> u32
    ensures { result ≡ high v }
{
    (v / (1 << 32)) as u32
}

// Where JAL or a branch goes, if that is a multiple of 4 in memory; else 1.
#[tactic(auto, unfolding(crate::specs::Rom::target))]
fn target(pc: u64, imm: i64) -> u32
    ensures { result ≡ target pc imm }
{
    let address = pc.wrapping_add(imm.cast_unsigned());
    if address % 4 == 0 && address < MEMORY_END {
        address as u32
    } else {
        1
    }
}

// The comparison, and whether the branch is taken where its flag is 0.
fn compared_by(cond: Cond) -> (OpNo, u8)
    ensures { result ≡ record { 0 = compared_by cond; 1 = turned cond } }
{
    match cond {
        Cond::Eq => (OpNo::Eq, 0),
        Cond::Ne => (OpNo::Eq, 1),
        Cond::Lt => (OpNo::Lt, 0),
        Cond::Ge => (OpNo::Lt, 1),
        Cond::Ltu => (OpNo::Ltu, 0),
        Cond::Geu => (OpNo::Ltu, 1),
    }
}

impl RomRow {
    // A step that computes `op` of x0 and a constant 0, and nothing else.
    fn blank(pc: u64, op: OpNo) -> RomRow
        ensures { result ≡ blank pc op }
    {
        RomRow {
            pc,
            rs1: 0,
            rs2: 0,
            rd: 0,
            op: op.number(),
            ilo: 0,
            ihi: 0,
            klo: 0,
            khi: 0,
            jt: 0,
            kind: 0,
            bi: 1,
            wr: 0,
            ld: 0,
            st: 0,
            jr: 0,
            jp: 0,
            br: 0,
            inv: 0,
            halt: 0,
            uw: 0,
        }
    }

    // A step that computes `op` of x0 and a constant.
    fn with_constant(pc: u64, op: OpNo, b: u64) -> RomRow
        ensures { result ≡ with_constant (blank pc op) b }
    {
        RomRow {
            ilo: low(b),
            ihi: high(b),
            ..RomRow::blank(pc, op)
        }
    }

    // The same with rd written: x0 never is.
    #[tactic(auto, unfolding(crate::specs::Rom::writes))]
    fn writing(self, rd: Reg) -> RomRow
        ensures { result ≡ writing rd self }
    {
        RomRow {
            rd: rd.number(),
            wr: if rd.number() == 0 { 0 } else { 1 },
            ..self
        }
    }

    fn jal(pc: u64, rd: Reg, imm: i64) -> RomRow
        ensures { result ≡ rom_row pc (Instr.Jal rd imm) }
    {
        RomRow {
            jp: 1,
            jt: target(pc, imm),
            ..RomRow::with_constant(pc, OpNo::Add, pc.wrapping_add(4))
        }
        .writing(rd)
    }

    fn jalr(pc: u64, rd: Reg, rs1: Reg, imm: i64) -> RomRow
        ensures { result ≡ rom_row pc (Instr.Jalr rd rs1 imm) }
    {
        let link = pc.wrapping_add(4);
        RomRow {
            rs1: rs1.number(),
            jr: 1,
            klo: low(link),
            khi: high(link),
            ..RomRow::with_constant(pc, OpNo::Add, imm.cast_unsigned())
        }
        .writing(rd)
    }

    fn branch(pc: u64, cond: Cond, rs1: Reg, rs2: Reg, imm: i64) -> RomRow
        ensures { result ≡ rom_row pc (Instr.Branch cond rs1 rs2 imm) }
    {
        let (op, inv) = compared_by(cond);
        RomRow {
            rs1: rs1.number(),
            rs2: rs2.number(),
            bi: 0,
            br: 1,
            jt: target(pc, imm),
            inv,
            ..RomRow::blank(pc, op)
        }
    }

    fn load(pc: u64, kind: Kind, rd: Reg, rs1: Reg, imm: i64) -> RomRow
        ensures { result ≡ rom_row pc (Instr.Load kind rd rs1 imm) }
    {
        RomRow {
            rs1: rs1.number(),
            ld: 1,
            kind: kind.number(),
            ..RomRow::with_constant(pc, OpNo::Add, imm.cast_unsigned())
        }
        .writing(rd)
    }

    fn store(pc: u64, kind: Kind, rs1: Reg, rs2: Reg, imm: i64) -> RomRow
        ensures { result ≡ rom_row pc (Instr.Store kind rs1 rs2 imm) }
    {
        RomRow {
            rs1: rs1.number(),
            rs2: rs2.number(),
            st: 1,
            kind: kind.number(),
            ..RomRow::with_constant(pc, OpNo::Add, imm.cast_unsigned())
        }
    }

    // An operation of rs1 and a constant, before rd is written.
    fn immediate(pc: u64, op: OpNo, rs1: Reg, imm: i64, uw: bool) -> RomRow
        ensures { result ≡ record (with_constant (blank pc op) (bits_of imm)) { rs1 = rs1; uw = one_if uw } }
    {
        RomRow {
            rs1: rs1.number(),
            uw: uw as u8,
            ..RomRow::with_constant(pc, op, imm.cast_unsigned())
        }
    }

    // An operation of two registers, before rd is written.
    fn registers(pc: u64, op: OpNo, rs1: Reg, rs2: Reg, uw: bool) -> RomRow
        ensures { result ≡ record (blank pc op) { rs1 = rs1; rs2 = rs2; bi = 0; uw = one_if uw } }
    {
        RomRow {
            rs1: rs1.number(),
            rs2: rs2.number(),
            bi: 0,
            uw: uw as u8,
            ..RomRow::blank(pc, op)
        }
    }

    fn ecall(pc: u64) -> RomRow
        ensures { result ≡ rom_row pc Instr.Ecall }
    {
        RomRow {
            rs1: CALL_REGISTER as u8,
            halt: 1,
            ..RomRow::blank(pc, OpNo::Add)
        }
    }

    /// The row of an instruction at `pc`.
    pub fn of(pc: u64, instr: Instr) -> RomRow
        ensures { result ≡ rom_row pc instr }
    {
        match instr {
            Instr::Lui { rd, imm } => {
                RomRow::with_constant(pc, OpNo::Add, imm.cast_unsigned()).writing(rd)
            }
            Instr::Auipc { rd, imm } => {
                let sum = pc.wrapping_add(imm.cast_unsigned());
                RomRow::with_constant(pc, OpNo::Add, sum).writing(rd)
            }
            Instr::Jal { rd, imm } => RomRow::jal(pc, rd, imm),
            Instr::Jalr { rd, rs1, imm } => RomRow::jalr(pc, rd, rs1, imm),
            Instr::Branch {
                cond,
                rs1,
                rs2,
                imm,
            } => RomRow::branch(pc, cond, rs1, rs2, imm),
            Instr::Load { kind, rd, rs1, imm } => RomRow::load(pc, kind, rd, rs1, imm),
            Instr::Store {
                kind,
                rs1,
                rs2,
                imm,
            } => RomRow::store(pc, kind, rs1, rs2, imm),
            Instr::OpImm {
                op,
                rd,
                rs1,
                imm,
                uw,
            } => { RomRow::immediate(pc, op, rs1, imm, uw).writing(rd) }
            Instr::Op {
                op,
                rd,
                rs1,
                rs2,
                uw,
            } => { RomRow::registers(pc, op, rs1, rs2, uw).writing(rd) }
            Instr::Ecall => RomRow::ecall(pc),
            Instr::Fence | Instr::Ebreak => RomRow::blank(pc, OpNo::Add),
        }
    }
}
