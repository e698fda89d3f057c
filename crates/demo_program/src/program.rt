//! The instructions of a demo program, and its file.
ghost use Rattle.std.specs.Prelude.{◌≡◌, ◌≤◌, ◌<◌, ◌+◌, ◌^◌, ◌++◌, false, map, OnOk, IfOk};
ghost use Rattle.std.specs.List.{range_with_len};
ghost use Rattle.rv_word.specs.declared.instr.Instr.TheVariants as instrs;
ghost use Rattle.rv_word.specs.declared.instr.OpNo.TheVariants as ops;
ghost use Rattle.demo_program.specs.declared.kind.DemoKind.TheVariants as kinds;
ghost use Rattle.demo_program.specs.Draws.{draw, state};
ghost use Rattle.demo_program.specs.Program.{drawn, instructions, leave, put_out, rd, rs1, rs2, set_base, set_value};
ghost use Rattle.demo_program.specs.Demo.{demo_file, IsSize};

use crate::DemoKind;
use crate::draws::Draws;
use crate::elf::tiny;
use rv_model::{CALL_REGISTER, EXIT_CALL, EXIT_REGISTER};
use rv_word::{Instr, Kind, OpNo, Reg};
use std::alloc::{AllocError, Global};

/// How many registers hold values, from x6 on.
const VALUES: u8 = 8;

/// The operations among which `alu` chooses.
const ALU_OPERATIONS: [OpNo; 15] = [
    OpNo::Add,
    OpNo::Sub,
    OpNo::Lt,
    OpNo::Ltu,
    OpNo::Xor,
    OpNo::Or,
    OpNo::And,
    OpNo::Sll,
    OpNo::Srl,
    OpNo::Sra,
    OpNo::Addw,
    OpNo::Subw,
    OpNo::Sllw,
    OpNo::Srlw,
    OpNo::Sraw,
];

/// The operations among which `mul` chooses.
const MUL_OPERATIONS: [OpNo; 13] = [
    OpNo::Mul,
    OpNo::Mulh,
    OpNo::Mulhsu,
    OpNo::Mulhu,
    OpNo::Div,
    OpNo::Divu,
    OpNo::Rem,
    OpNo::Remu,
    OpNo::Mulw,
    OpNo::Divw,
    OpNo::Divuw,
    OpNo::Remw,
    OpNo::Remuw,
];

/// The register that holds the base of accesses.
fn base() -> Reg
    ensures { result ≡ 5 }
{
    Reg::new(5)
}

/// The register of a value.
fn value(index: u8) -> Reg
    requires { index < 8 }
    ensures { result ≡ 6 + index }
{
    Reg::new(6 + index)
}

fn operation(op: OpNo, draw: u64) -> Instr
    ensures { result ≡ instrs.Op op (rd draw) (rs1 draw) (rs2 draw) false }
{
    Instr::Op {
        op,
        rd: value((draw % 8) as u8),
        rs1: value((draw / 8 % 8) as u8),
        rs2: value((draw / 64 % 8) as u8),
        uw: false,
    }
}

/// A store where the rest of the draw is even, else a load.
fn access(draw: u64) -> Instr
    ensures { result ≡ drawn kinds.Mem draw }
{
    let rest = draw / 512;
    let imm = (8 * (rest / 2 % 256)) as i64;
    if rest % 2 == 0 {
        Instr::Store {
            kind: Kind::Sd,
            rs1: base(),
            rs2: value((draw / 64 % 8) as u8),
            imm,
        }
    } else {
        Instr::Load {
            kind: Kind::Ld,
            rd: value((draw % 8) as u8),
            rs1: base(),
            imm,
        }
    }
}

/// The instruction of a draw.
fn drawn(kind: DemoKind, draw: u64) -> Instr
    ensures { result ≡ drawn kind draw }
{
    let rest = draw / 512;
    match kind {
        DemoKind::Alu => operation(ALU_OPERATIONS[(rest % 15) as usize], draw),
        DemoKind::Mul => operation(MUL_OPERATIONS[(rest % 13) as usize], draw),
        DemoKind::Mem => access(draw),
    }
}

/// Sets the base of accesses to a page of 4,096 bytes.
fn set_base(page: u32) -> Instr
    requires { page < 2 ^ 19 }
    ensures { result ≡ set_base page }
{
    Instr::Lui {
        rd: base(),
        imm: i64::from(page) << 12,
    }
}

/// Sets a register to a small number.
fn set(rd: Reg, imm: i64) -> Instr
    ensures { result ≡ instrs.OpImm ops.Add rd 0 imm false }
{
    Instr::OpImm {
        op: OpNo::Add,
        rd,
        rs1: Reg::new(0),
        imm,
        uw: false,
    }
}

/// Sets the values, each from a draw.
fn push_values(program: &mut Vec<Instr>, draws: &mut Draws) -> Result<(), AllocError>
    ensures items { OnOk result (program.new.items ≡ program.old.items ++ map (set_value draws.old.state) (range_with_len 0 8)) }
    ensures state { OnOk result (draws.new.state ≡ state draws.old.state 8) }
{
    for j in 0..VALUES {
        program.push(set(value(j), (draws.draw() % 4096) as i64 - 2048))?;
    }
    Ok(())
}

/// Draws the instructions of the program's kind.
fn push_drawn(
    program: &mut Vec<Instr>,
    draws: &mut Draws,
    kind: DemoKind,
    size: u32,
) -> Result<(), AllocError>
    ensures { OnOk result (program.new.items ≡ program.old.items ++ map (λ k. drawn kind (draw draws.old.state k)) (range_with_len 0 size)) }
{
    for _ in 0..size {
        program.push(drawn(kind, draws.draw()))?;
    }
    Ok(())
}

/// Puts the values into the output window.
fn push_output(program: &mut Vec<Instr>) -> Result<(), AllocError>
    ensures { OnOk result (program.new.items ≡ program.old.items ++ map put_out (range_with_len 0 8)) }
{
    for j in 0..VALUES {
        program.push(Instr::Store {
            kind: Kind::Sd,
            rs1: base(),
            rs2: value(j),
            imm: 8 * i64::from(j),
        })?;
    }
    Ok(())
}

/// Exits with 0.
fn push_leave(program: &mut Vec<Instr>) -> Result<(), AllocError>
    ensures { OnOk result (program.new.items ≡ program.old.items ++ leave) }
{
    program.push(set(Reg::new(CALL_REGISTER as u8), EXIT_CALL as i64))?;
    program.push(set(Reg::new(EXIT_REGISTER as u8), 0))?;
    program.push(Instr::Ecall)?;
    Ok(())
}

/// The instructions of a demo program.
fn instructions(
    alloc: Global,
    number: u64,
    kind: DemoKind,
    size: u32,
) -> Result<Vec<Instr>, AllocError>
    ensures { IfOk result (λ v. v.items ≡ instructions number kind size) }
{
    let mut program = Vec::new(alloc);
    let mut draws = Draws { state: number };
    program.push(set_base(0x60000))?;
    push_values(&mut program, &mut draws)?;
    push_drawn(&mut program, &mut draws, kind, size)?;
    program.push(set_base(0x50000))?;
    push_output(&mut program)?;
    push_leave(&mut program)?;
    Ok(program)
}

/// The ELF file of the program that a number, a kind and a size from 1 to 100,000 make. `demo_runs` says that it loads
/// and what its run comes to.
pub fn demo_elf(
    alloc: Global,
    number: u64,
    kind: DemoKind,
    size: u32,
) -> Result<Vec<u8>, AllocError>
    requires { IsSize size }
    ensures { IfOk result (λ v. v.items ≡ demo_file number kind size) }
{
    let program = instructions(alloc, number, kind, size)?;
    tiny(alloc, &program)
}
