//! An instruction over pc, registers and the one doubleword that it may touch.
ghost use Rattle.std.specs.Prelude.{◌≡◌, ◌+◌, ◌*◌, ◌/◌, ◌%◌, ◌<◌, ◌≤◌, ◌^◌, slice_index, ℕ};
ghost use Rattle.rv_model.specs.State.{with_reg, operand, is_taken, wrapped, next, next_with_reg, load, store, jump, executed};
ghost use Rattle.rv_model.specs.Cpu.{with_memory, access, is_store, Touches, memory_after, told, KeepsUnlessNext, constant, forgot};

use crate::{
    Access, CALL_REGISTER, EXIT_CALL, MEMORY_END, RunFault, StepAnswer, align, op, width_of,
};
use rv_word::{Cond, Instr, Kind, Reg};

/// pc and the 32 registers. No instruction writes x0, which is 0 at the start.
#[derive(Clone, Copy, Debug, PartialEq, Eq)]
pub struct Cpu {
    pub pc: u64,
    pub x: [u64; 32],
}

#[inline(always)]
fn register(x: &[u64; 32], reg: Reg) -> u64
    ensures { result ≡ slice_index x.now reg }
{
    x[reg.number() as usize]
}

#[inline(always)]
fn set_register(x: &mut [u64; 32], reg: Reg, value: u64)
    ensures { x.new ≡ with_reg x.old reg value }
{
    let number = reg.number() as usize;
    if number != 0 {
        x[number] = value;
    }
}

/// The first operand of an operation, by the value of rs1: with uw its low 32 bits (RISC-V Unprivileged ISA, Zba,
/// "Address generation instructions").
#[inline(always)]
pub fn operand(uw: bool, value: u64) -> u64
    ensures { result ≡ operand uw value }
{
    if uw { value % (1 << 32) } else { value }
}

#[inline(always)]
fn takes_branch(cond: Cond, a: u64, b: u64) -> bool
    ensures { result ≡ is_taken cond a b }
{
    match cond {
        Cond::Eq => a == b,
        Cond::Ne => a != b,
        Cond::Lt => a.cast_signed() < b.cast_signed(),
        Cond::Ge => a.cast_signed() >= b.cast_signed(),
        Cond::Ltu => a < b,
        Cond::Geu => a >= b,
    }
}

/// Whether the instruction is a store.
#[inline(always)]
pub fn is_store(instr: &Instr) -> bool
    ensures { result ≡ is_store instr.now }
{
    matches!(instr, Instr::Store { .. })
}

impl Cpu {
    #[inline(always)]
    fn write(&mut self, rd: Reg, value: u64) -> StepAnswer
        ensures told { forgot (next_with_reg (constant self.old 0) rd value) ≡ told result self.new (λ _. 0) }
        ensures kept { KeepsUnlessNext result self.old self.new }
    {
        set_register(&mut self.x, rd, value);
        self.pc = self.pc.wrapping_add(4);
        StepAnswer::Next
    }

    #[inline(always)]
    fn pass(&mut self) -> StepAnswer
        ensures told { forgot (next (constant self.old 0)) ≡ told result self.new (λ _. 0) }
        ensures kept { KeepsUnlessNext result self.old self.new }
    {
        self.pc = self.pc.wrapping_add(4);
        StepAnswer::Next
    }

    // A jump that keeps its return address in rd.
    #[inline(always)]
    fn link(&mut self, rd: Reg, target: u64) -> StepAnswer
        ensures told { (old : ℕ) → forgot (jump (constant self.old old) (with_reg self.old.x rd (wrapped (self.old.pc + 4))) target) ≡ told result self.new (λ _. 0) }
        ensures kept { KeepsUnlessNext result self.old self.new }
    {
        if target % 4 == 0 {
            set_register(&mut self.x, rd, self.pc.wrapping_add(4));
            self.pc = target;
            StepAnswer::Next
        } else {
            StepAnswer::Fault(RunFault::BadTarget(self.pc, target))
        }
    }

    #[inline(always)]
    fn branch(&mut self, target: u64) -> StepAnswer
        ensures told { (old : ℕ) → forgot (jump (constant self.old old) self.old.x target) ≡ told result self.new (λ _. 0) }
        ensures kept { KeepsUnlessNext result self.old self.new }
    {
        if target % 4 == 0 {
            self.pc = target;
            StepAnswer::Next
        } else {
            StepAnswer::Fault(RunFault::BadTarget(self.pc, target))
        }
    }

    #[inline(always)]
    #[tactic(auto, unfolding(crate::specs::State::load))]
    fn load(&mut self, kind: Kind, rd: Reg, address: u64, old: u64) -> StepAnswer
        ensures told { forgot (load (constant self.old old) kind rd address) ≡ told result self.new (λ _. 0) }
        ensures kept { KeepsUnlessNext result self.old self.new }
    {
        if address % width_of(kind) != 0 {
            return StepAnswer::Fault(RunFault::Misaligned(self.pc, address));
        }
        if address >= MEMORY_END {
            return StepAnswer::Fault(RunFault::BadAddress(self.pc, address));
        }
        let value = align(kind, (address % 8) as u8, old, 0);
        self.write(rd, value)
    }

    #[inline(always)]
    #[tactic(auto, unfolding(crate::specs::State::store))]
    fn store(&mut self, kind: Kind, address: u64, value: u64, old: u64) -> StepAnswer
        ensures told { forgot (store (constant self.old old) kind address value) ≡ told result self.new (λ _. 0) }
        ensures kept { KeepsUnlessNext result self.old self.new }
    {
        if address % width_of(kind) != 0 {
            return StepAnswer::Fault(RunFault::Misaligned(self.pc, address));
        }
        if address >= MEMORY_END {
            return StepAnswer::Fault(RunFault::BadAddress(self.pc, address));
        }
        self.pass()
    }

    /// The access that the instruction makes, if it is a load or a store.
    #[inline(always)]
    pub fn access(&self, instr: &Instr) -> Option<Access>
        ensures { (word : ℕ → ℕ) → result ≡ access instr.now (with_memory self.now word) }
    {
        match instr {
            Instr::Load { kind, rs1, imm, .. } => Some(Access {
                kind: *kind,
                address: register(&self.x, *rs1).wrapping_add(imm.cast_unsigned()),
                value: 0,
            }),
            Instr::Store {
                kind,
                rs1,
                rs2,
                imm,
            } => Some(Access {
                kind: *kind,
                address: register(&self.x, *rs1).wrapping_add(imm.cast_unsigned()),
                value: register(&self.x, *rs2),
            }),
            _ => None,
        }
    }

    #[inline(always)]
    fn perform(&mut self, instr: &Instr, old: u64) -> StepAnswer
        ensures told { forgot (executed instr.now (constant self.old old)) ≡ told result self.new (λ _. 0) }
        ensures kept { KeepsUnlessNext result self.old self.new }
    {
        match instr {
            Instr::Lui { rd, imm } => self.write(*rd, imm.cast_unsigned()),
            Instr::Auipc { rd, imm } => {
                let value = self.pc.wrapping_add(imm.cast_unsigned());
                self.write(*rd, value)
            }
            Instr::Jal { rd, imm } => {
                let target = self.pc.wrapping_add(imm.cast_unsigned());
                self.link(*rd, target)
            }
            Instr::Jalr { rd, rs1, imm } => {
                let target = register(&self.x, *rs1).wrapping_add(imm.cast_unsigned()) / 2 * 2;
                self.link(*rd, target)
            }
            Instr::Branch {
                cond,
                rs1,
                rs2,
                imm,
            } => {
                if takes_branch(*cond, register(&self.x, *rs1), register(&self.x, *rs2)) {
                    let target = self.pc.wrapping_add(imm.cast_unsigned());
                    self.branch(target)
                } else {
                    self.pass()
                }
            }
            Instr::Load { kind, rd, rs1, imm } => {
                let address = register(&self.x, *rs1).wrapping_add(imm.cast_unsigned());
                self.load(*kind, *rd, address, old)
            }
            Instr::Store {
                kind,
                rs1,
                rs2,
                imm,
            } => {
                let address = register(&self.x, *rs1).wrapping_add(imm.cast_unsigned());
                let value = register(&self.x, *rs2);
                self.store(*kind, address, value, old)
            }
            Instr::OpImm {
                op: operation,
                rd,
                rs1,
                imm,
                uw,
            } => {
                let a = operand(*uw, register(&self.x, *rs1));
                let value = op(*operation, a, imm.cast_unsigned()).0;
                self.write(*rd, value)
            }
            Instr::Op {
                op: operation,
                rd,
                rs1,
                rs2,
                uw,
            } => {
                let a = operand(*uw, register(&self.x, *rs1));
                let value = op(*operation, a, register(&self.x, *rs2)).0;
                self.write(*rd, value)
            }
            Instr::Fence => self.pass(),
            Instr::Ecall => {
                if self.x[CALL_REGISTER] == EXIT_CALL {
                    StepAnswer::Halt
                } else {
                    StepAnswer::Fault(RunFault::BadCall(self.pc, self.x[CALL_REGISTER]))
                }
            }
            Instr::Ebreak => StepAnswer::Fault(RunFault::Break(self.pc)),
        }
    }

    /// One instruction, where `old` is the doubleword that it touches, if it touches one at a good address.
    /// It does what the instruction does in each state with this pc, these registers and this doubleword; the caller
    /// keeps the memory. After Halt and Fault nothing has changed.
    #[inline(always)]
    pub fn apply(&mut self, instr: &Instr, old: u64) -> StepAnswer
        ensures does { (word : ℕ → ℕ) → Touches instr.now (with_memory self.old word) old → executed instr.now (with_memory self.old word) ≡ told result self.new (memory_after instr.now (with_memory self.old word)) }
        ensures kept { KeepsUnlessNext result self.old self.new }
    {
        self.perform(instr, old)
    }
}
