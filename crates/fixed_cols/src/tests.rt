//! The constants of a small program.
use super::*;
use gold::Profile;
use rv_model::{Image, Segment, bytes_law};
use std::alloc::{AllocError, Global};
use std::test::Fail;
use zk_layout::Namespace;

// At 0: a branch to -4 that isn't taken, x17 = 93, ECALL.
fn branch_below_zero(alloc: Global) -> Result<Image, AllocError> {
    let bytes = [0xE3, 0x1E, 0, 0xFE, 0x93, 0x08, 0xD0, 0x05, 0x73, 0, 0, 0].to_vec(alloc)?;
    bytes_law(&bytes);
    let mut segments = Vec::new(alloc);
    segments.push(Segment {
        start: 0,
        len: 12,
        exec: true,
        bytes,
    })?;
    let input = Vec::new(alloc);
    Image::new(alloc, 0, segments, input)
}

#[test]
fn rom_row_of_a_branch(rt: HostRuntime) -> Result<(), Fail> {
    let image = branch_below_zero(rt.alloc())?;
    let sizes = Sizes {
        profile: Profile::Small,
        counts: [1, 1, 1, 0, 0, 0, 1],
    };
    let values = constants(rt.alloc(), &image, &sizes)?;
    let rom = Namespace::Rom.number();
    assert_eq!(rt; values.instances(rom), 1);
    // SEL, PC, OP, JT, BI, BR and INV
    let wanted = [(0, 1), (1, 0), (5, 5), (10, 1), (12, 0), (18, 1), (19, 1)];
    for (column, value) in wanted {
        assert_eq!(rt; values.at(rom, 0, column, 0).value(), value);
    }
    assert_eq!(rt; values.at(rom, 0, 0, 2).value(), 1);
    assert_eq!(rt; values.at(rom, 0, 0, 3).value(), 0);
    // KEY, LO and HI
    let init = Namespace::Init.number();
    for (column, value) in [(1, 0), (2, 0xFE00_1EE3), (3, 0x05D0_0893)] {
        assert_eq!(rt; values.at(init, 0, column, 0).value(), value);
    }
    Ok(())
}

#[test]
fn constants_of_two_wide_instances(rt: HostRuntime) -> Result<(), Fail> {
    let image = branch_below_zero(rt.alloc())?;
    let sizes = Sizes {
        profile: Profile::Wide,
        counts: [2, 1, 1, 0, 0, 0, 1],
    };
    let values = constants(rt.alloc(), &image, &sizes)?;
    let main = Namespace::Main.number();
    assert_eq!(rt; values.instances(main), 2);
    assert_eq!(rt; values.at(main, 1, 0, 5).value(), 16_389);
    // CLAST and LEND in the last row of each instance
    for (instance, clast, lend) in [(0, 1, 0), (1, 0, 1)] {
        assert_eq!(rt; values.at(main, instance, 4, 16_383).value(), clast);
        assert_eq!(rt; values.at(main, instance, 6, 16_383).value(), lend);
    }
    // SRAW by 17: M of ShiftTab
    assert_eq!(rt; values.at(3, 0, 10, 5 * 64 + 17).value(), 1 << 15);
    // AND of BinTab; KEY of Out in rows 0 and 32
    assert_eq!(rt; values.at(2, 0, 2, 0xF03C).value(), 0x30);
    assert_eq!(rt; values.at(8, 0, 1, 0).value(), 536_870_922);
    assert_eq!(rt; values.at(8, 0, 1, 32).value(), 167_772_191);
    Ok(())
}
