//! From a word to its instruction.
ghost use Rattle.std.specs.Prelude.{◌≡◌, ℕ, false, IfSome, Some};
ghost use Rattle.std.specs.Option.{option_map};
ghost use Rattle.rv_word.specs.declared.instr.Instr.{Instr};
ghost use Rattle.rv_word.specs.declared.instr.Instr.TheVariants.{Branch, Load, Store, OpImm, Op};
ghost use Rattle.rv_word.specs.Fields.{bits_at, rd_of, rs1_of, rs2_of, i_imm, s_imm, b_imm};
ghost use Rattle.rv_word.specs.Is.{Is, decoded};
ghost use Rattle.rv_word.specs.Ranges.{InRange};

use crate::fields::{
    b_immediate, bits, i_immediate, j_immediate, rd, rs1, rs2, s_immediate, u_immediate,
};
use crate::{Cond, Instr, Kind, OpNo};

// The next functions name the instruction of a word with one opcode, by funct3 and the bits above rs2.

#[tactic(auto, unfolding(crate::specs::Is::decoded, crate::specs::Table::rows))]
#[inline(always)]
fn condition(word: u32) -> Option<Cond>
    requires { bits_at 0 7 word ≡ 0x63 }
    ensures { option_map (λ c. Branch c (rs1_of word) (rs2_of word) (b_imm word)) result ≡ decoded word }
{
    match bits(word, 12, 3) {
        0 => Some(Cond::Eq),
        1 => Some(Cond::Ne),
        4 => Some(Cond::Lt),
        5 => Some(Cond::Ge),
        6 => Some(Cond::Ltu),
        7 => Some(Cond::Geu),
        _ => None,
    }
}

#[tactic(auto, unfolding(crate::specs::Is::decoded, crate::specs::Table::rows))]
#[inline(always)]
fn loaded(word: u32) -> Option<Kind>
    requires { bits_at 0 7 word ≡ 0x03 }
    ensures { option_map (λ k. Load k (rd_of word) (rs1_of word) (i_imm word)) result ≡ decoded word }
{
    match bits(word, 12, 3) {
        0 => Some(Kind::Lb),
        1 => Some(Kind::Lh),
        2 => Some(Kind::Lw),
        3 => Some(Kind::Ld),
        4 => Some(Kind::Lbu),
        5 => Some(Kind::Lhu),
        6 => Some(Kind::Lwu),
        _ => None,
    }
}

#[tactic(auto, unfolding(crate::specs::Is::decoded, crate::specs::Table::rows))]
#[inline(always)]
fn stored(word: u32) -> Option<Kind>
    requires { bits_at 0 7 word ≡ 0x23 }
    ensures { option_map (λ k. Store k (rs1_of word) (rs2_of word) (s_imm word)) result ≡ decoded word }
{
    match bits(word, 12, 3) {
        0 => Some(Kind::Sb),
        1 => Some(Kind::Sh),
        2 => Some(Kind::Sw),
        3 => Some(Kind::Sd),
        _ => None,
    }
}

#[tactic(auto, unfolding(crate::specs::Is::decoded, crate::specs::Table::rows))]
#[inline(always)]
fn operation(word: u32) -> Option<OpNo>
    requires { bits_at 0 7 word ≡ 0x33 }
    ensures { option_map (λ o. Op o (rd_of word) (rs1_of word) (rs2_of word) false) result ≡ decoded word }
{
    match (bits(word, 25, 7), bits(word, 12, 3)) {
        (0x00, 0) => Some(OpNo::Add),
        (0x00, 1) => Some(OpNo::Sll),
        (0x00, 2) => Some(OpNo::Lt),
        (0x00, 3) => Some(OpNo::Ltu),
        (0x00, 4) => Some(OpNo::Xor),
        (0x00, 5) => Some(OpNo::Srl),
        (0x00, 6) => Some(OpNo::Or),
        (0x00, 7) => Some(OpNo::And),
        (0x01, 0) => Some(OpNo::Mul),
        (0x01, 1) => Some(OpNo::Mulh),
        (0x01, 2) => Some(OpNo::Mulhsu),
        (0x01, 3) => Some(OpNo::Mulhu),
        (0x01, 4) => Some(OpNo::Div),
        (0x01, 5) => Some(OpNo::Divu),
        (0x01, 6) => Some(OpNo::Rem),
        (0x01, 7) => Some(OpNo::Remu),
        (0x07, 5) => Some(OpNo::Czeqz),
        (0x07, 7) => Some(OpNo::Cznez),
        (0x10, 2) => Some(OpNo::Sh1add),
        (0x10, 4) => Some(OpNo::Sh2add),
        (0x10, 6) => Some(OpNo::Sh3add),
        (0x20, 0) => Some(OpNo::Sub),
        (0x20, 5) => Some(OpNo::Sra),
        _ => None,
    }
}

#[tactic(auto, unfolding(crate::specs::Is::decoded, crate::specs::Table::rows))]
#[inline(always)]
fn operation_32(word: u32) -> Option<(OpNo, bool)>
    requires { bits_at 0 7 word ≡ 0x3b }
    ensures { option_map (λ p. Op p.0 (rd_of word) (rs1_of word) (rs2_of word) p.1) result ≡ decoded word }
{
    match (bits(word, 25, 7), bits(word, 12, 3)) {
        (0x00, 0) => Some((OpNo::Addw, false)),
        (0x00, 1) => Some((OpNo::Sllw, false)),
        (0x00, 5) => Some((OpNo::Srlw, false)),
        (0x01, 0) => Some((OpNo::Mulw, false)),
        (0x01, 4) => Some((OpNo::Divw, false)),
        (0x01, 5) => Some((OpNo::Divuw, false)),
        (0x01, 6) => Some((OpNo::Remw, false)),
        (0x01, 7) => Some((OpNo::Remuw, false)),
        (0x04, 0) => Some((OpNo::Add, true)),
        (0x10, 2) => Some((OpNo::Sh1add, true)),
        (0x10, 4) => Some((OpNo::Sh2add, true)),
        (0x10, 6) => Some((OpNo::Sh3add, true)),
        (0x20, 0) => Some((OpNo::Subw, false)),
        (0x20, 5) => Some((OpNo::Sraw, false)),
        _ => None,
    }
}

#[tactic(auto, unfolding(crate::specs::Is::decoded, crate::specs::Table::rows))]
#[inline(always)]
fn immediate(word: u32) -> Option<(OpNo, i64)>
    requires { bits_at 0 7 word ≡ 0x13 }
    ensures { option_map (λ p. OpImm p.0 (rd_of word) (rs1_of word) p.1 false) result ≡ decoded word }
{
    let imm = i_immediate(word);
    let amount = i64::from(bits(word, 20, 6));
    match (bits(word, 12, 3), bits(word, 26, 6)) {
        (0, _) => Some((OpNo::Add, imm)),
        (1, 0x00) => Some((OpNo::Sll, amount)),
        (2, _) => Some((OpNo::Lt, imm)),
        (3, _) => Some((OpNo::Ltu, imm)),
        (4, _) => Some((OpNo::Xor, imm)),
        (5, 0x00) => Some((OpNo::Srl, amount)),
        (5, 0x10) => Some((OpNo::Sra, amount)),
        (6, _) => Some((OpNo::Or, imm)),
        (7, _) => Some((OpNo::And, imm)),
        _ => None,
    }
}

#[tactic(auto, unfolding(crate::specs::Is::decoded, crate::specs::Table::rows))]
#[inline(always)]
fn immediate_32(word: u32) -> Option<(OpNo, i64, bool)>
    requires { bits_at 0 7 word ≡ 0x1b }
    ensures { option_map (λ p. OpImm p.0 (rd_of word) (rs1_of word) p.1 p.2) result ≡ decoded word }
{
    let imm = i_immediate(word);
    let amount = i64::from(bits(word, 20, 5));
    match (bits(word, 12, 3), bits(word, 26, 6), bits(word, 25, 1)) {
        (0, _, _) => Some((OpNo::Addw, imm, false)),
        (1, 0x02, _) => Some((OpNo::Sll, i64::from(bits(word, 20, 6)), true)),
        (1, 0x00, 0) => Some((OpNo::Sllw, amount, false)),
        (5, 0x00, 0) => Some((OpNo::Srlw, amount, false)),
        (5, 0x10, 0) => Some((OpNo::Sraw, amount, false)),
        _ => None,
    }
}

#[tactic(auto, unfolding(crate::specs::Is::decoded, crate::specs::Table::rows))]
#[inline(always)]
fn instruction(word: u32) -> Option<Instr>
    ensures { result ≡ decoded word }
{
    match bits(word, 0, 7) {
        0x37 => Some(Instr::Lui {
            rd: rd(word),
            imm: u_immediate(word),
        }),
        0x17 => Some(Instr::Auipc {
            rd: rd(word),
            imm: u_immediate(word),
        }),
        0x6f => Some(Instr::Jal {
            rd: rd(word),
            imm: j_immediate(word),
        }),
        0x67 if bits(word, 12, 3) == 0 => Some(Instr::Jalr {
            rd: rd(word),
            rs1: rs1(word),
            imm: i_immediate(word),
        }),
        0x63 => {
            let cond = condition(word)?;
            Some(Instr::Branch {
                cond,
                rs1: rs1(word),
                rs2: rs2(word),
                imm: b_immediate(word),
            })
        }
        0x03 => {
            let kind = loaded(word)?;
            Some(Instr::Load {
                kind,
                rd: rd(word),
                rs1: rs1(word),
                imm: i_immediate(word),
            })
        }
        0x23 => {
            let kind = stored(word)?;
            Some(Instr::Store {
                kind,
                rs1: rs1(word),
                rs2: rs2(word),
                imm: s_immediate(word),
            })
        }
        0x13 => {
            let (op, imm) = immediate(word)?;
            Some(Instr::OpImm {
                op,
                rd: rd(word),
                rs1: rs1(word),
                imm,
                uw: false,
            })
        }
        0x1b => {
            let (op, imm, uw) = immediate_32(word)?;
            Some(Instr::OpImm {
                op,
                rd: rd(word),
                rs1: rs1(word),
                imm,
                uw,
            })
        }
        0x33 => {
            let op = operation(word)?;
            Some(Instr::Op {
                op,
                rd: rd(word),
                rs1: rs1(word),
                rs2: rs2(word),
                uw: false,
            })
        }
        0x3b => {
            let (op, uw) = operation_32(word)?;
            Some(Instr::Op {
                op,
                rd: rd(word),
                rs1: rs1(word),
                rs2: rs2(word),
                uw,
            })
        }
        0x0f if bits(word, 12, 3) == 0 => Some(Instr::Fence),
        0x73 => match bits(word, 7, 25) {
            0x0000 => Some(Instr::Ecall),
            0x2000 => Some(Instr::Ebreak),
            _ => None,
        },
        _ => None,
    }
}

/// The instruction that the word stands for, or `None` if it stands for none of RV64IM, Zba and Zicond
/// (RISC-V Unprivileged ISA, RV32/64G Instruction Set Listings).
#[inline]
pub fn decode(word: u32) -> Option<Instr>
    ensures value { result ≡ decoded word }
    ensures found { IfSome result (Is word) }
    ensures range { IfSome result InRange }
    ensures only { (i : Instr) → Is word i → result ≡ Some i }
{
    instruction(word)
}

/// What [`decode`] says, of all words at once: for proofs that have no call of it at hand.
pub fn decoding_law()
    ensures found { (w : ℕ) → IfSome (decoded w) (Is w) }
    ensures only { (w : ℕ) (i : Instr) → Is w i → decoded w ≡ Some i }
    ensures range { (w : ℕ) (i : Instr) → Is w i → InRange i }
{}
