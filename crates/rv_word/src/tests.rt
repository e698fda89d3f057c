//! Words as LLVM's assembler writes them, and words that are no instruction.
use crate::{Cond, Instr, Kind, OpNo, Reg, decode, decoding_law, encode, fits, round_trip};
use std::process::Abort;

fn reg(number: u8) -> Reg {
    Reg::new(number % 32)
}

fn assert_stands_for(rt: &impl Abort, word: u32, i: Instr) {
    assert!(rt; decode(word) == Some(i), "{word:08x}");
    assert!(rt; fits(&i), "{word:08x}");
    assert!(rt; encode(&i) == word, "{word:08x}");
    assert!(rt; round_trip(&i) == Some(i), "{word:08x}");
}

#[test]
fn reads_lui(rt: HostRuntime) {
    for (word, rd, imm) in [(0x5000_03b7, 7, 1342177280), (0x8000_0fb7, 31, -2147483648)] {
        assert_stands_for(&rt, word, Instr::Lui { rd: reg(rd), imm });
    }
}

#[test]
fn reads_auipc(rt: HostRuntime) {
    for (word, rd, imm) in [(0xffff_f517, 10, -4096)] {
        assert_stands_for(&rt, word, Instr::Auipc { rd: reg(rd), imm });
    }
}

#[test]
fn reads_jal(rt: HostRuntime) {
    for (word, rd, imm) in [
        (0x0010_00ef, 1, 2048),
        (0xff5f_f06f, 0, -12),
        (0x8000_0fef, 31, -1048576),
        (0x7fff_f2ef, 5, 1048574),
    ] {
        assert_stands_for(&rt, word, Instr::Jal { rd: reg(rd), imm });
    }
}

#[test]
fn reads_jalr(rt: HostRuntime) {
    for (word, rd, rs1, imm) in [(0x0000_8067, 0, 1, 0), (0x8003_00e7, 1, 6, -2048)] {
        assert_stands_for(
            &rt,
            word,
            Instr::Jalr {
                rd: reg(rd),
                rs1: reg(rs1),
                imm,
            },
        );
    }
}

#[test]
fn reads_branches(rt: HostRuntime) {
    for (word, cond, rs1, rs2, imm) in [
        (0x7e20_8fe3, Cond::Eq, 1, 2, 4094),
        (0xfe00_1ee3, Cond::Ne, 0, 0, -4),
        (0x8041_c063, Cond::Lt, 3, 4, -4096),
        (0x0062_d0e3, Cond::Ge, 5, 6, 2048),
        (0x0083_ef63, Cond::Ltu, 7, 8, 30),
        (0x00a5_f463, Cond::Geu, 11, 10, 8),
    ] {
        assert_stands_for(
            &rt,
            word,
            Instr::Branch {
                cond,
                rs1: reg(rs1),
                rs2: reg(rs2),
                imm,
            },
        );
    }
}

#[test]
fn reads_loads(rt: HostRuntime) {
    for (word, kind, rd, rs1, imm) in [
        (0xfff1_0083, Kind::Lb, 1, 2, -1),
        (0x0022_1183, Kind::Lh, 3, 4, 2),
        (0x00c1_2083, Kind::Lw, 1, 2, 12),
        (0x0081_3083, Kind::Ld, 1, 2, 8),
        (0x7ff3_4283, Kind::Lbu, 5, 6, 2047),
        (0x8004_5383, Kind::Lhu, 7, 8, -2048),
        (0x0045_6483, Kind::Lwu, 9, 10, 4),
    ] {
        assert_stands_for(
            &rt,
            word,
            Instr::Load {
                kind,
                rd: reg(rd),
                rs1: reg(rs1),
                imm,
            },
        );
    }
}

#[test]
fn reads_stores(rt: HostRuntime) {
    for (word, kind, rs2, rs1, imm) in [
        (0xfeb6_0fa3, Kind::Sb, 11, 12, -1),
        (0x7ed7_1f23, Kind::Sh, 13, 14, 2046),
        (0x0011_2623, Kind::Sw, 1, 2, 12),
        (0x0063_b423, Kind::Sd, 6, 7, 8),
    ] {
        assert_stands_for(
            &rt,
            word,
            Instr::Store {
                kind,
                rs1: reg(rs1),
                rs2: reg(rs2),
                imm,
            },
        );
    }
}

#[test]
fn reads_operations_with_immediates(rt: HostRuntime) {
    for (word, op, rd, rs1, imm) in [
        (0x0070_0513, OpNo::Add, 10, 0, 7),
        (0x8001_2093, OpNo::Lt, 1, 2, -2048),
        (0x0012_3193, OpNo::Ltu, 3, 4, 1),
        (0xfff3_4293, OpNo::Xor, 5, 6, -1),
        (0x7ff4_6393, OpNo::Or, 7, 8, 2047),
        (0x0ff5_7493, OpNo::And, 9, 10, 255),
        (0x03f1_1093, OpNo::Sll, 1, 2, 63),
        (0x0202_d293, OpNo::Srl, 5, 5, 32),
        (0x4282_5193, OpNo::Sra, 3, 4, 40),
        (0xfff1_009b, OpNo::Addw, 1, 2, -1),
        (0x0017_979b, OpNo::Sllw, 15, 15, 1),
        (0x01f1_509b, OpNo::Srlw, 1, 2, 31),
        (0x4017_d79b, OpNo::Sraw, 15, 15, 1),
    ] {
        assert_stands_for(
            &rt,
            word,
            Instr::OpImm {
                op,
                rd: reg(rd),
                rs1: reg(rs1),
                imm,
                uw: false,
            },
        );
    }
}

#[test]
fn reads_operations(rt: HostRuntime) {
    for (word, op, rd, rs1, rs2) in [
        (0x0031_00b3, OpNo::Add, 1, 2, 3),
        (0x40f7_07b3, OpNo::Sub, 15, 14, 15),
        (0x0031_10b3, OpNo::Sll, 1, 2, 3),
        (0x0031_20b3, OpNo::Lt, 1, 2, 3),
        (0x0031_30b3, OpNo::Ltu, 1, 2, 3),
        (0x0062_c233, OpNo::Xor, 4, 5, 6),
        (0x0031_50b3, OpNo::Srl, 1, 2, 3),
        (0x4062_d233, OpNo::Sra, 4, 5, 6),
        (0x0094_63b3, OpNo::Or, 7, 8, 9),
        (0x00c5_f533, OpNo::And, 10, 11, 12),
        (0x00f7_07bb, OpNo::Addw, 15, 14, 15),
        (0x4031_00bb, OpNo::Subw, 1, 2, 3),
        (0x0031_10bb, OpNo::Sllw, 1, 2, 3),
        (0x0062_d23b, OpNo::Srlw, 4, 5, 6),
        (0x4094_53bb, OpNo::Sraw, 7, 8, 9),
        (0x02f7_07b3, OpNo::Mul, 15, 14, 15),
        (0x0231_10b3, OpNo::Mulh, 1, 2, 3),
        (0x0262_a233, OpNo::Mulhsu, 4, 5, 6),
        (0x0294_33b3, OpNo::Mulhu, 7, 8, 9),
        (0x02f7_47b3, OpNo::Div, 15, 14, 15),
        (0x0231_50b3, OpNo::Divu, 1, 2, 3),
        (0x0262_e233, OpNo::Rem, 4, 5, 6),
        (0x0294_73b3, OpNo::Remu, 7, 8, 9),
        (0x0231_00bb, OpNo::Mulw, 1, 2, 3),
        (0x0262_c23b, OpNo::Divw, 4, 5, 6),
        (0x0294_53bb, OpNo::Divuw, 7, 8, 9),
        (0x02c5_e53b, OpNo::Remw, 10, 11, 12),
        (0x02f7_77bb, OpNo::Remuw, 15, 14, 15),
    ] {
        assert_stands_for(
            &rt,
            word,
            Instr::Op {
                op,
                rd: reg(rd),
                rs1: reg(rs1),
                rs2: reg(rs2),
                uw: false,
            },
        );
    }
}

#[test]
fn new_words_encoded(rt: HostRuntime) {
    let (rd, rs1, rs2) = (reg(5), reg(6), reg(7));
    for (word, op, uw) in [
        (0x0E73_52B3, OpNo::Czeqz, false), // CZERO.EQZ x5, x6, x7
        (0x2073_62BB, OpNo::Sh3add, true), // SH3ADD.UW x5, x6, x7
    ] {
        assert_stands_for(
            &rt,
            word,
            Instr::Op {
                op,
                rd,
                rs1,
                rs2,
                uw,
            },
        );
    }
    // SLLI.UW x5, x6, 63
    assert_stands_for(
        &rt,
        0x0BF3_129B,
        Instr::OpImm {
            op: OpNo::Sll,
            rd,
            rs1,
            imm: 63,
            uw: true,
        },
    );
}

#[test]
fn reads_address_generation(rt: HostRuntime) {
    for (word, op, rd, rs1, rs2, uw) in [
        (0x20b5_2533, OpNo::Sh1add, 10, 10, 11, false),
        (0x2031_40b3, OpNo::Sh2add, 1, 2, 3, false),
        (0x2031_60b3, OpNo::Sh3add, 1, 2, 3, false),
        (0x08b5_053b, OpNo::Add, 10, 10, 11, true),
        (0x2031_20bb, OpNo::Sh1add, 1, 2, 3, true),
        (0x2031_40bb, OpNo::Sh2add, 1, 2, 3, true),
        (0x0e31_70b3, OpNo::Cznez, 1, 2, 3, false),
    ] {
        assert_stands_for(
            &rt,
            word,
            Instr::Op {
                op,
                rd: reg(rd),
                rs1: reg(rs1),
                rs2: reg(rs2),
                uw,
            },
        );
    }
}

#[test]
fn reads_system_instructions(rt: HostRuntime) {
    assert_stands_for(&rt, 0x0000_0073, Instr::Ecall);
    assert_stands_for(&rt, 0x0010_0073, Instr::Ebreak);
    assert_stands_for(&rt, 0x0000_000f, Instr::Fence);
    // FENCE RW, RW; FENCE.TSO; FENCE; PAUSE; and one with all other bits set
    for word in [
        0x0330_000f,
        0x8330_000f,
        0x0ff0_000f,
        0x0100_000f,
        0xffff_8f8f,
    ] {
        assert!(rt; decode(word) == Some(Instr::Fence), "{word:08x}");
    }
}

#[test]
fn refuses_other_words(rt: HostRuntime) {
    for word in [
        0x0000_0000, // all zero
        0xffff_ffff, // all ones
        0x0000_100f, // FENCE.I
        0x3053_1073, // CSRRW x0, mtvec, x6
        0x3020_0073, // MRET
        0x1050_0073, // WFI
        0x0000_00f3, // ECALL with rd 1
        0x0000_8073, // ECALL with rs1 1
        0x0020_0073, // after EBREAK
        0x0217_979b, // SLLIW with bit 25
        0x0400_1013, // SLLI with bit 26
        0x0800_5013, // SRLI with bit 27
        0x0c31_109b, // SLLI.UW with bit 26
        0x0e31_30b3, // CZERO with funct3 3
        0x0c31_113b, // ADD.UW's funct7 with bit 26
        0x4a31_00bb, // REV8's funct7
        0x0201_10bb, // funct3 1 of RV64M on 32 bits
        0x4020_10b3, // SUB's funct7 with funct3 1
        0x0000_1067, // JALR with funct3 1
        0x0000_2063, // branch with funct3 2
        0x0000_7003, // load with funct3 7
        0x0000_4023, // store with funct3 4
        0x0001_2087, // FLW
        0x1001_30af, // LR.D
    ] {
        assert!(rt; decode(word) == None, "{word:08x}");
    }
}

#[test]
fn refuses_operands_without_a_word(rt: HostRuntime) {
    let (rd, rs1, rs2) = (reg(1), reg(2), reg(3));
    for imm in [-(1 << 31) - 4096, 1 << 31, 1, 4095] {
        assert!(rt; !fits(&Instr::Lui { rd, imm }), "{imm}");
    }
    for imm in [-(1 << 20) - 2, 1 << 20, 3] {
        assert!(rt; !fits(&Instr::Jal { rd, imm }), "{imm}");
    }
    for imm in [-4098, 4096, 5] {
        assert!(rt;
            !fits(&Instr::Branch {
                cond: Cond::Eq,
                rs1,
                rs2,
                imm
            }),
            "{imm}"
        );
    }
    for imm in [-2049, 2048, i64::MIN, i64::MAX] {
        assert!(rt; !fits(&Instr::Jalr { rd, rs1, imm }), "{imm}");
        assert!(rt;
            !fits(&Instr::Load {
                kind: Kind::Ld,
                rd,
                rs1,
                imm
            }),
            "{imm}"
        );
        assert!(rt;
            !fits(&Instr::Store {
                kind: Kind::Sd,
                rs1,
                rs2,
                imm
            }),
            "{imm}"
        );
        assert!(rt;
            !fits(&Instr::OpImm {
                op: OpNo::Add,
                rd,
                rs1,
                imm,
                uw: false
            }),
            "{imm}"
        );
    }
    for (op, imm, uw) in [
        (OpNo::Sll, 64, false),
        (OpNo::Sll, 64, true),
        (OpNo::Sra, -1, false),
        (OpNo::Sllw, 32, false),
        (OpNo::Sub, 0, false),
        (OpNo::Mul, 0, false),
        (OpNo::Add, 0, true),
        (OpNo::Srl, 0, true),
    ] {
        assert!(rt;
            !fits(&Instr::OpImm {
                op,
                rd,
                rs1,
                imm,
                uw
            }),
            "{imm}"
        );
    }
    assert!(rt;
        !fits(&Instr::Load {
            kind: Kind::Sd,
            rd,
            rs1,
            imm: 0
        })
    );
    assert!(rt;
        !fits(&Instr::Store {
            kind: Kind::Ld,
            rs1,
            rs2,
            imm: 0
        })
    );
    for (op, uw) in [
        (OpNo::Eq, false),
        (OpNo::Sub, true),
        (OpNo::Sll, true),
        (OpNo::Czeqz, true),
    ] {
        assert!(rt;
            !fits(&Instr::Op {
                op,
                rd,
                rs1,
                rs2,
                uw
            })
        );
    }
}

#[test]
fn numbers_names(rt: HostRuntime) {
    assert!(rt; OpNo::Add.number() == 1 && OpNo::Mul.number() == 17 && OpNo::Cznez.number() == 34);
    assert!(rt; Kind::Lb.number() == 1 && Kind::Sb.number() == 8 && Kind::Sd.number() == 11);
    assert!(rt; reg(31).number() == 31);
    decoding_law();
}
