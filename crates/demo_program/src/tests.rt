//! Files of small programs, with words computed by another program and read back by LLVM's disassembler.
use crate::{DemoKind, demo_elf};
use elf_load::load;
use rv_model::run;
use std::alloc::{AllocError, Global};
use std::test::Fail;

/// The words before the drawn ones: x5, then x6 to x13 from the draws of the number 1.
const FROM_ONE: [u32; 9] = [
    0x6000_02B7,
    0xFD60_0313,
    0xB590_0393,
    0x8CC0_0413,
    0x2E60_0493,
    0x35A0_0513,
    0x8F30_0593,
    0x29A0_0613,
    0x0F60_0693,
];

/// The words after them.
const END: [u32; 12] = [
    0x5000_02B7,
    0x0062_B023,
    0x0072_B423,
    0x0082_B823,
    0x0092_BC23,
    0x02A2_B023,
    0x02B2_B423,
    0x02C2_B823,
    0x02D2_BC23,
    0x05D0_0893,
    0x0000_0513,
    0x0000_0073,
];

/// The file's words from the n-th on, as many as are asked for.
fn words(alloc: Global, file: &[u8], first: usize, count: usize) -> Result<Vec<u32>, AllocError> {
    let mut words = Vec::new(alloc);
    for word in file.chunks_exact(4).skip(30).skip(first).take(count) {
        if let [a, b, c, d] = word {
            words.push(u32::from_le_bytes([*a, *b, *c, *d]))?;
        }
    }
    Ok(words)
}

#[test]
fn a_program_of_each_kind_has_its_words(rt: HostRuntime) -> Result<(), Fail> {
    for (kind, word) in [
        (DemoKind::Mem, 0x04A2_B423),
        (DemoKind::Mul, 0x02A5_A3B3),
        (DemoKind::Alu, 0x00A5_F3B3),
    ] {
        let file = demo_elf(rt.alloc(), 1, kind, 1)?;
        assert_eq!(rt; file.len(), 208);
        assert_eq!(rt;
            words(rt.alloc(), &file, 0, 9)?.as_slice(),
            FROM_ONE.as_slice()
        );
        assert_eq!(rt;
            words(rt.alloc(), &file, 9, 1)?.as_slice(),
            [word].as_slice()
        );
        assert_eq!(rt;
            words(rt.alloc(), &file, 10, 12)?.as_slice(),
            END.as_slice()
        );
    }
    Ok(())
}

#[test]
fn loads_and_stores_are_drawn(rt: HostRuntime) -> Result<(), Fail> {
    let file = demo_elf(rt.alloc(), 7, DemoKind::Mem, 4)?;
    let drawn = [0x7E92_B023, 0x1482_B603, 0x0C82_B483, 0x40C2_B823];
    assert_eq!(rt;
        words(rt.alloc(), &file, 9, 4)?.as_slice(),
        drawn.as_slice()
    );
    Ok(())
}

#[test]
fn a_program_is_loaded_and_run(rt: HostRuntime) -> Result<(), Fail> {
    let file = demo_elf(rt.alloc(), 7, DemoKind::Mul, 5000)?;
    let image = load(rt.alloc(), &file, &[])?;
    match run(rt.alloc(), &image, u32::MAX) {
        Ok(ran) => {
            assert_eq!(rt; ran.steps, 5021);
            assert_eq!(rt; ran.public.exit, 0);
        }
        Err(_) => assert!(rt; false),
    }
    Ok(())
}
