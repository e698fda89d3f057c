//! The text and its tree, once for each profile.
use crate::{machine, machine_lines, text};
use gold::Profile;
use pil_ast::{Item, Pil};
use std::test::Fail;

/// How many lines a text has.
fn lines(pil: &Pil) -> u64 {
    let mut count: u64 = 0;
    for space in pil.spaces.as_slice() {
        for item in space.items.as_slice() {
            if matches!(
                item,
                Item::Identity { .. } | Item::Lookup { .. } | Item::Bus { .. }
            ) {
                count = count.saturating_add(1);
            }
        }
    }
    count
}

#[test]
fn has_266_lines_in_either_profile(rt: HostRuntime) -> Result<(), Fail> {
    machine_lines();
    let small = machine(rt.alloc(), Profile::Small)?;
    let wide = machine(rt.alloc(), Profile::Wide)?;
    assert_eq!(rt; lines(&small), 266);
    assert_eq!(rt; lines(&wide), 266);
    Ok(())
}

/// 4096 has four digits, 16384 five.
#[test]
fn wide_has_a_digit_more(rt: HostRuntime) -> Result<(), Fail> {
    let small = text(rt.alloc(), Profile::Small)?;
    let wide = text(rt.alloc(), Profile::Wide)?;
    assert!(rt; small.len() < wide.len());
    assert!(rt; wide.len() - small.len() == 1);
    Ok(())
}
