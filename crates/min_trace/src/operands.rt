//! The operation that each instruction makes, and the registers that it names. Each step reads rs1 and rs2 and makes
//! exactly one operation on rs1's value and a second operand.
ghost use Rattle.std.specs.Prelude.{◌≡◌, ◌+◌, ◌^◌};
ghost use Rattle.min_trace.specs.Operands.{rs1_of, rs2_of, rd_of, op_of, uw_of, compared_by, constant_of};

use rv_model::CALL_REGISTER;
use rv_word::{Cond, Instr, OpNo, Reg};

/// The first register that is read: x17 for ECALL, and x0 where the instruction names none.
pub fn rs1_of(instr: &Instr) -> Reg
    ensures { result ≡ rs1_of instr.now }
{
    match instr {
        Instr::Jalr { rs1, .. }
        | Instr::Branch { rs1, .. }
        | Instr::Load { rs1, .. }
        | Instr::Store { rs1, .. }
        | Instr::OpImm { rs1, .. }
        | Instr::Op { rs1, .. } => *rs1,
        Instr::Ecall => Reg::new(CALL_REGISTER as u8),
        _ => Reg::new(0),
    }
}

/// The second register that is read, x0 where the instruction names none.
pub fn rs2_of(instr: &Instr) -> Reg
    ensures { result ≡ rs2_of instr.now }
{
    match instr {
        Instr::Branch { rs2, .. } | Instr::Store { rs2, .. } | Instr::Op { rs2, .. } => *rs2,
        _ => Reg::new(0),
    }
}

/// The register that is written, x0 where there is none.
pub fn rd_of(instr: &Instr) -> Reg
    ensures { result ≡ rd_of instr.now }
{
    match instr {
        Instr::Lui { rd, .. }
        | Instr::Auipc { rd, .. }
        | Instr::Jal { rd, .. }
        | Instr::Jalr { rd, .. }
        | Instr::Load { rd, .. }
        | Instr::OpImm { rd, .. }
        | Instr::Op { rd, .. } => *rd,
        _ => Reg::new(0),
    }
}

fn compared_by(cond: Cond) -> OpNo
    ensures { result ≡ compared_by cond }
{
    match cond {
        Cond::Eq | Cond::Ne => OpNo::Eq,
        Cond::Lt | Cond::Ge => OpNo::Lt,
        Cond::Ltu | Cond::Geu => OpNo::Ltu,
    }
}

/// The operation: that of an OP or OP-IMM, the comparison of a branch, else ADD.
pub fn op_of(instr: &Instr) -> OpNo
    ensures { result ≡ op_of instr.now }
{
    match instr {
        Instr::Branch { cond, .. } => compared_by(*cond),
        Instr::OpImm { op, .. } | Instr::Op { op, .. } => *op,
        _ => OpNo::Add,
    }
}

/// Whether the operation's first operand is the low 32 bits of rs1's value, and not all of it.
pub fn uw_of(instr: &Instr) -> bool
    ensures { result ≡ uw_of instr.now }
{
    match instr {
        Instr::OpImm { uw, .. } | Instr::Op { uw, .. } => *uw,
        _ => false,
    }
}

/// The operation's second operand where it is a constant of the instruction at pc; None where it is rs2's value.
pub fn constant_of(instr: &Instr, pc: u64) -> Option<u64>
    ensures { result ≡ constant_of instr.now pc }
{
    match instr {
        Instr::Lui { imm, .. }
        | Instr::Jalr { imm, .. }
        | Instr::Load { imm, .. }
        | Instr::Store { imm, .. }
        | Instr::OpImm { imm, .. } => Some(imm.cast_unsigned()),
        Instr::Auipc { imm, .. } => Some(pc.wrapping_add(imm.cast_unsigned())),
        Instr::Jal { .. } => Some(pc.wrapping_add(4)),
        Instr::Branch { .. } | Instr::Op { .. } => None,
        Instr::Fence | Instr::Ecall | Instr::Ebreak => Some(0),
    }
}
