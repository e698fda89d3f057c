//! From an instruction to its word.
ghost use Rattle.std.specs.Prelude.{◌≡◌, ◌<◌, ◌≤◌, ◌^◌, ◌+◌, ◌*◌, ◌↔◌, ◌≢◌, ℕ, ℤ, IsTrue, Some};
ghost use Rattle.rv_word.specs.declared.instr.Instr.TheVariants as instrs;
ghost use Rattle.rv_word.specs.Is.{Fits, Is};
ghost use Rattle.rv_word.specs.Encoding.{b_bits, encoding, fixed_bits, j_bits, low, operand_bits, s_bits};

use crate::{Cond, Instr, Kind, OpNo, Reg, decode};

// The lowest bits of a number in two's complement.
#[tactic(auto, unfolding(crate::specs::Encoding::low))]
fn low_bits(number: i64, len: u32) -> u64
    requires { len ≤ 32 }
    ensures value { result ≡ low len number }
    ensures below { result < 2 ^ len }
{
    number.cast_unsigned() % (1 << len)
}

fn rd_bits(reg: Reg) -> u64
    ensures value { result ≡ 2 ^ 7 * reg }
    ensures below { result < 2 ^ 12 }
{
    u64::from(reg.number()) << 7
}

fn rs1_bits(reg: Reg) -> u64
    ensures value { result ≡ 2 ^ 15 * reg }
    ensures below { result < 2 ^ 20 }
{
    u64::from(reg.number()) << 15
}

fn rs2_bits(reg: Reg) -> u64
    ensures value { result ≡ 2 ^ 20 * reg }
    ensures below { result < 2 ^ 25 }
{
    u64::from(reg.number()) << 20
}

fn i_immediate_bits(imm: i64) -> u64
    ensures value { result ≡ 2 ^ 20 * low 12 imm }
    ensures below { result < 2 ^ 32 }
{
    low_bits(imm, 12) << 20
}

#[tactic(auto, unfolding(crate::specs::Encoding::s_bits))]
fn s_immediate_bits(imm: i64) -> u64
    ensures value { result ≡ s_bits (low 12 imm) }
    ensures below { result < 2 ^ 32 }
{
    let n = low_bits(imm, 12);
    ((n >> 5) << 25) + ((n % 32) << 7)
}

#[tactic(auto, unfolding(crate::specs::Encoding::b_bits))]
fn b_immediate_bits(imm: i64) -> u64
    ensures value { result ≡ b_bits (low 13 imm) }
    ensures below { result < 2 ^ 32 }
{
    let n = low_bits(imm, 13);
    let high = ((n >> 12) << 31) + ((n >> 5) % 64 << 25);
    let low = ((n >> 1) % 16 << 8) + ((n >> 11) % 2 << 7);
    high + low
}

#[tactic(auto, unfolding(crate::specs::Encoding::j_bits))]
fn j_immediate_bits(imm: i64) -> u64
    ensures value { result ≡ j_bits (low 21 imm) }
    ensures below { result < 2 ^ 32 }
{
    let n = low_bits(imm, 21);
    let high = ((n >> 20) << 31) + ((n >> 1) % 1024 << 21);
    let low = ((n >> 11) % 2 << 20) + ((n >> 12) % 256 << 12);
    high + low
}

// The fields by which a word is known, at their places.
fn fields(opcode: u64, funct3: u64, funct7: u64) -> u64
    requires opcode { opcode < 2 ^ 7 }
    requires funct3 { funct3 < 2 ^ 3 }
    requires funct7 { funct7 < 2 ^ 7 }
    ensures { result ≡ opcode + 2 ^ 12 * funct3 + 2 ^ 25 * funct7 }
{
    opcode + (funct3 << 12) + (funct7 << 25)
}

#[tactic(auto, unfolding(crate::specs::Encoding::fixed_bits, crate::specs::Table::rows, crate::specs::Numbers::op_number))]
fn operation_fields(op: OpNo, uw: bool) -> u64
    ensures value { (rd rs1 rs2 : ℕ) → result ≡ fixed_bits (instrs.Op op rd rs1 rs2 uw) }
    ensures below { result < 2 ^ 32 }
{
    match (op, uw) {
        (OpNo::Add, false) => fields(0x33, 0, 0x00),
        (OpNo::Sub, false) => fields(0x33, 0, 0x20),
        (OpNo::Sll, false) => fields(0x33, 1, 0x00),
        (OpNo::Lt, false) => fields(0x33, 2, 0x00),
        (OpNo::Ltu, false) => fields(0x33, 3, 0x00),
        (OpNo::Xor, false) => fields(0x33, 4, 0x00),
        (OpNo::Srl, false) => fields(0x33, 5, 0x00),
        (OpNo::Sra, false) => fields(0x33, 5, 0x20),
        (OpNo::Or, false) => fields(0x33, 6, 0x00),
        (OpNo::And, false) => fields(0x33, 7, 0x00),
        (OpNo::Mul, false) => fields(0x33, 0, 0x01),
        (OpNo::Mulh, false) => fields(0x33, 1, 0x01),
        (OpNo::Mulhsu, false) => fields(0x33, 2, 0x01),
        (OpNo::Mulhu, false) => fields(0x33, 3, 0x01),
        (OpNo::Div, false) => fields(0x33, 4, 0x01),
        (OpNo::Divu, false) => fields(0x33, 5, 0x01),
        (OpNo::Rem, false) => fields(0x33, 6, 0x01),
        (OpNo::Remu, false) => fields(0x33, 7, 0x01),
        (OpNo::Addw, false) => fields(0x3b, 0, 0x00),
        (OpNo::Subw, false) => fields(0x3b, 0, 0x20),
        (OpNo::Sllw, false) => fields(0x3b, 1, 0x00),
        (OpNo::Srlw, false) => fields(0x3b, 5, 0x00),
        (OpNo::Sraw, false) => fields(0x3b, 5, 0x20),
        (OpNo::Mulw, false) => fields(0x3b, 0, 0x01),
        (OpNo::Divw, false) => fields(0x3b, 4, 0x01),
        (OpNo::Divuw, false) => fields(0x3b, 5, 0x01),
        (OpNo::Remw, false) => fields(0x3b, 6, 0x01),
        (OpNo::Remuw, false) => fields(0x3b, 7, 0x01),
        (OpNo::Sh1add, false) => fields(0x33, 2, 0x10),
        (OpNo::Sh2add, false) => fields(0x33, 4, 0x10),
        (OpNo::Sh3add, false) => fields(0x33, 6, 0x10),
        (OpNo::Add, true) => fields(0x3b, 0, 0x04),
        (OpNo::Sh1add, true) => fields(0x3b, 2, 0x10),
        (OpNo::Sh2add, true) => fields(0x3b, 4, 0x10),
        (OpNo::Sh3add, true) => fields(0x3b, 6, 0x10),
        (OpNo::Czeqz, false) => fields(0x33, 5, 0x07),
        (OpNo::Cznez, false) => fields(0x33, 7, 0x07),
        _ => 0,
    }
}

#[tactic(auto, unfolding(crate::specs::Encoding::fixed_bits, crate::specs::Table::rows, crate::specs::Numbers::op_number))]
fn immediate_fields(op: OpNo, uw: bool) -> u64
    ensures value { (rd rs1 : ℕ) (imm : ℤ) → result ≡ fixed_bits (instrs.OpImm op rd rs1 imm uw) }
    ensures below { result < 2 ^ 32 }
{
    match (op, uw) {
        (OpNo::Add, false) => fields(0x13, 0, 0x00),
        (OpNo::Sll, false) => fields(0x13, 1, 0x00),
        (OpNo::Lt, false) => fields(0x13, 2, 0x00),
        (OpNo::Ltu, false) => fields(0x13, 3, 0x00),
        (OpNo::Xor, false) => fields(0x13, 4, 0x00),
        (OpNo::Srl, false) => fields(0x13, 5, 0x00),
        (OpNo::Sra, false) => fields(0x13, 5, 0x20),
        (OpNo::Or, false) => fields(0x13, 6, 0x00),
        (OpNo::And, false) => fields(0x13, 7, 0x00),
        (OpNo::Addw, false) => fields(0x1b, 0, 0x00),
        (OpNo::Sllw, false) => fields(0x1b, 1, 0x00),
        (OpNo::Srlw, false) => fields(0x1b, 5, 0x00),
        (OpNo::Sraw, false) => fields(0x1b, 5, 0x20),
        (OpNo::Sll, true) => fields(0x1b, 1, 0x04),
        _ => 0,
    }
}

#[tactic(auto, unfolding(crate::specs::Encoding::fixed_bits, crate::specs::Table::rows, crate::specs::Numbers::kind_number))]
fn load_fields(kind: Kind) -> u64
    ensures value { (rd rs1 : ℕ) (imm : ℤ) → result ≡ fixed_bits (instrs.Load kind rd rs1 imm) }
    ensures below { result < 2 ^ 32 }
{
    match kind {
        Kind::Lb => fields(0x03, 0, 0x00),
        Kind::Lh => fields(0x03, 1, 0x00),
        Kind::Lw => fields(0x03, 2, 0x00),
        Kind::Ld => fields(0x03, 3, 0x00),
        Kind::Lbu => fields(0x03, 4, 0x00),
        Kind::Lhu => fields(0x03, 5, 0x00),
        Kind::Lwu => fields(0x03, 6, 0x00),
        _ => 0,
    }
}

#[tactic(auto, unfolding(crate::specs::Encoding::fixed_bits, crate::specs::Table::rows, crate::specs::Numbers::kind_number))]
fn store_fields(kind: Kind) -> u64
    ensures value { (rs1 rs2 : ℕ) (imm : ℤ) → result ≡ fixed_bits (instrs.Store kind rs1 rs2 imm) }
    ensures below { result < 2 ^ 32 }
{
    match kind {
        Kind::Sb => fields(0x23, 0, 0x00),
        Kind::Sh => fields(0x23, 1, 0x00),
        Kind::Sw => fields(0x23, 2, 0x00),
        Kind::Sd => fields(0x23, 3, 0x00),
        _ => 0,
    }
}

#[tactic(auto, unfolding(crate::specs::Encoding::fixed_bits, crate::specs::Table::rows))]
fn branch_fields(cond: Cond) -> u64
    ensures value { (rs1 rs2 : ℕ) (imm : ℤ) → result ≡ fixed_bits (instrs.Branch cond rs1 rs2 imm) }
    ensures below { result < 2 ^ 32 }
{
    match cond {
        Cond::Eq => fields(0x63, 0, 0x00),
        Cond::Ne => fields(0x63, 1, 0x00),
        Cond::Lt => fields(0x63, 4, 0x00),
        Cond::Ge => fields(0x63, 5, 0x00),
        Cond::Ltu => fields(0x63, 6, 0x00),
        Cond::Geu => fields(0x63, 7, 0x00),
    }
}

// The fields of the instruction's row; 0 where no row has its name.
#[tactic(auto, unfolding(crate::specs::Encoding::fixed_bits, crate::specs::Table::rows))]
fn instruction_fields(i: &Instr) -> u64
    ensures value { result ≡ fixed_bits i.now }
    ensures below { result < 2 ^ 32 }
{
    match *i {
        Instr::Lui { .. } => fields(0x37, 0, 0x00),
        Instr::Auipc { .. } => fields(0x17, 0, 0x00),
        Instr::Jal { .. } => fields(0x6f, 0, 0x00),
        Instr::Jalr { .. } => fields(0x67, 0, 0x00),
        Instr::Branch { cond, .. } => branch_fields(cond),
        Instr::Load { kind, .. } => load_fields(kind),
        Instr::Store { kind, .. } => store_fields(kind),
        Instr::OpImm { op, uw, .. } => immediate_fields(op, uw),
        Instr::Op { op, uw, .. } => operation_fields(op, uw),
        Instr::Fence => fields(0x0f, 0, 0x00),
        Instr::Ecall => 0x0000_0073,
        Instr::Ebreak => 0x0010_0073,
    }
}

// The operands of the instruction, at their places.
fn operands(i: &Instr) -> u64
    ensures value { result ≡ operand_bits i.now }
    ensures below { result < 2 ^ 34 }
{
    match *i {
        Instr::Lui { rd, imm } | Instr::Auipc { rd, imm } => rd_bits(rd) + low_bits(imm, 32),
        Instr::Jal { rd, imm } => rd_bits(rd) + j_immediate_bits(imm),
        Instr::Jalr { rd, rs1, imm }
        | Instr::Load { rd, rs1, imm, .. }
        | Instr::OpImm { rd, rs1, imm, .. } => {
            rd_bits(rd) + rs1_bits(rs1) + i_immediate_bits(imm)
        }
        Instr::Branch { rs1, rs2, imm, .. } => {
            rs1_bits(rs1) + rs2_bits(rs2) + b_immediate_bits(imm)
        }
        Instr::Store { rs1, rs2, imm, .. } => {
            rs1_bits(rs1) + rs2_bits(rs2) + s_immediate_bits(imm)
        }
        Instr::Op { rd, rs1, rs2, .. } => rd_bits(rd) + rs1_bits(rs1) + rs2_bits(rs2),
        Instr::Fence | Instr::Ecall | Instr::Ebreak => 0,
    }
}

// The instruction's word, if it has one; else some number.
fn encoded(i: &Instr) -> u32
    ensures { result ≡ encoding i.now }
{
    ((instruction_fields(i) + operands(i)) % (1 << 32)) as u32
}

// `==` as a fact.
fn same(a: &Instr, b: &Instr) -> bool
    ensures { IsTrue result ↔ (a.now ≡ b.now) }
{
    a == b
}

/// Whether some word stands for the instruction: its name is one of RV64IM, Zba or Zicond, and its immediate is one that its
/// form can hold (RISC-V Unprivileged ISA, 2.2 and 2.3).
pub fn fits(i: &Instr) -> bool
    ensures { IsTrue result ↔ Fits i.now }
{
    match decode(encoded(i)) {
        Some(again) => same(&again, i),
        None => false,
    }
}

/// The word that stands for the instruction (RISC-V Unprivileged ISA, RV32/64G Instruction Set Listings); of
/// FENCE's words the one whose ignored bits are 0.
pub fn encode(i: &Instr) -> u32
    requires { Fits i.now }
    ensures word { Is result i.now }
    ensures fence { i.now ≡ instrs.Fence → result ≡ 0x0000000f }
    ensures only { (w : ℕ) → w < 2 ^ 32 → Is w i.now → i.now ≢ instrs.Fence → w ≡ result }
{
    encoded(i)
}

/// What the instruction's word decodes to: the instruction.
pub fn round_trip(i: &Instr) -> Option<Instr>
    requires { Fits i.now }
    ensures { result ≡ Some i.now }
{
    decode(encode(i))
}
