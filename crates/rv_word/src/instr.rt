//! The instructions, with the operations, conditions and kinds of access that they name.
ghost use Rattle.std.specs.Prelude.{◌≡◌};
ghost use Rattle.rv_word.specs.Numbers.{op_number, kind_number};

use crate::Reg;

/// When a branch is taken (RISC-V Unprivileged ISA, 2.5.2): U compares without sign.
#[derive(Clone, Copy, Debug, PartialEq, Eq)]
pub enum Cond {
    Eq,
    Ne,
    Lt,
    Ge,
    Ltu,
    Geu,
}

/// What a load or a store moves (RISC-V Unprivileged ISA, 2.6 and RV64I): a byte, halfword, word or doubleword,
/// and, for a load with U, without sign.
#[derive(Clone, Copy, Debug, PartialEq, Eq)]
pub enum Kind {
    Lb,
    Lh,
    Lw,
    Ld,
    Lbu,
    Lhu,
    Lwu,
    Sb,
    Sh,
    Sw,
    Sd,
}

impl Kind {
    /// The kind's number, from 1 for LB to 11 for SD.
    #[tactic(auto, unfolding(crate::specs::Numbers::kind_number))]
    pub fn number(self) -> u8
        ensures { result ≡ kind_number self }
    {
        match self {
            Kind::Lb => 1,
            Kind::Lh => 2,
            Kind::Lw => 3,
            Kind::Ld => 4,
            Kind::Lbu => 5,
            Kind::Lhu => 6,
            Kind::Lwu => 7,
            Kind::Sb => 8,
            Kind::Sh => 9,
            Kind::Sw => 10,
            Kind::Sd => 11,
        }
    }
}

/// An operation on two 64-bit numbers; those with W work on the low 32 bits.
#[derive(Clone, Copy, Debug, PartialEq, Eq)]
pub enum OpNo {
    Add,
    Sub,
    Ltu,
    Lt,
    Eq,
    And,
    Or,
    Xor,
    Addw,
    Subw,
    Sll,
    Srl,
    Sra,
    Sllw,
    Srlw,
    Sraw,
    Mul,
    Mulh,
    Mulhsu,
    Mulhu,
    Div,
    Divu,
    Rem,
    Remu,
    Mulw,
    Divw,
    Divuw,
    Remw,
    Remuw,
    Sh1add,
    Sh2add,
    Sh3add,
    Czeqz,
    Cznez,
}

impl OpNo {
    /// The operation's number, from 1 for ADD to 34 for CZNEZ.
    #[tactic(auto, unfolding(crate::specs::Numbers::op_number))]
    pub fn number(self) -> u8
        ensures { result ≡ op_number self }
    {
        match self {
            OpNo::Add => 1,
            OpNo::Sub => 2,
            OpNo::Ltu => 3,
            OpNo::Lt => 4,
            OpNo::Eq => 5,
            OpNo::And => 6,
            OpNo::Or => 7,
            OpNo::Xor => 8,
            OpNo::Addw => 9,
            OpNo::Subw => 10,
            OpNo::Sll => 11,
            OpNo::Srl => 12,
            OpNo::Sra => 13,
            OpNo::Sllw => 14,
            OpNo::Srlw => 15,
            OpNo::Sraw => 16,
            OpNo::Mul => 17,
            OpNo::Mulh => 18,
            OpNo::Mulhsu => 19,
            OpNo::Mulhu => 20,
            OpNo::Div => 21,
            OpNo::Divu => 22,
            OpNo::Rem => 23,
            OpNo::Remu => 24,
            OpNo::Mulw => 25,
            OpNo::Divw => 26,
            OpNo::Divuw => 27,
            OpNo::Remw => 28,
            OpNo::Remuw => 29,
            OpNo::Sh1add => 30,
            OpNo::Sh2add => 31,
            OpNo::Sh3add => 32,
            OpNo::Czeqz => 33,
            OpNo::Cznez => 34,
        }
    }
}

/// An instruction of RV64IM, Zba or Zicond with its operands (RISC-V Unprivileged ISA, RV32/64G Instruction Set Listings).
/// An immediate is the signed number that its bits stand for; that of a shift is its amount.
/// SLT and SLTU are `Lt` and `Ltu`. With `uw` the first operand is the low 32 bits of rs1, filled up with zeros:
/// ADD.UW, SH1ADD.UW, SH2ADD.UW, SH3ADD.UW and SLLI.UW have it. An `OpImm` or `Op` that no instruction has, as
/// `OpImm` with `Sub`, has no word.
#[derive(Clone, Copy, Debug, PartialEq, Eq)]
pub enum Instr {
    Lui {
        rd: Reg,
        imm: i64,
    },
    Auipc {
        rd: Reg,
        imm: i64,
    },
    Jal {
        rd: Reg,
        imm: i64,
    },
    Jalr {
        rd: Reg,
        rs1: Reg,
        imm: i64,
    },
    Branch {
        cond: Cond,
        rs1: Reg,
        rs2: Reg,
        imm: i64,
    },
    Load {
        kind: Kind,
        rd: Reg,
        rs1: Reg,
        imm: i64,
    },
    Store {
        kind: Kind,
        rs1: Reg,
        rs2: Reg,
        imm: i64,
    },
    OpImm {
        op: OpNo,
        rd: Reg,
        rs1: Reg,
        imm: i64,
        uw: bool,
    },
    Op {
        op: OpNo,
        rd: Reg,
        rs1: Reg,
        rs2: Reg,
        uw: bool,
    },
    Fence,
    Ecall,
    Ebreak,
}
