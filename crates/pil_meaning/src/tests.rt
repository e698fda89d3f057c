//! A text without namespaces.
use crate::{least_double_mark, read_meaning};
use pil_names::{Outline, read_directory};
use sqlite_items::Items;
use std::alloc::{AllocError, Global};
use std::test::Fail;

/// How many namespaces an outline without any means, and its least double mark.
fn nothing(alloc: Global) -> Result<(usize, Option<u64>), AllocError> {
    let outline = Outline {
        constants: Items::new(alloc),
        homes: Items::new(alloc),
    };
    let (directory, _) = read_directory(alloc, &outline)?;
    let pil = read_meaning(alloc, &outline, &directory)?;
    let double = least_double_mark(alloc, &outline, &directory, &pil)?;
    Ok((pil.spaces.len(), double))
}

#[test]
fn reads_no_namespace(rt: HostRuntime) -> Result<(), Fail> {
    assert_eq!(rt; nothing(rt.alloc()).ok(), Some((0, None)));
    Ok(())
}
