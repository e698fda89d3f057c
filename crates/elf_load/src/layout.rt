//! Where the segments lie.
ghost use Rattle.std.specs.Prelude.{◌≡◌, ◌<◌, ◌^◌, ◌↔◌, length, filter, position, IsTrue, IfSome, OnOk, IfOk, IfErr};
ghost use Rattle.std.specs.List.{AllAdjacentBelow};
ghost use Rattle.elf_load.specs.File.{headers_of};
ghost use Rattle.elf_load.specs.Header.{has_memory};
ghost use Rattle.elf_load.specs.Refusal.{Refused};
ghost use Rattle.elf_load.specs.Progress.{PassesFirst, IsAnswer};
ghost use Rattle.elf_load.specs.Layout.{is_in_window, Ascends, EndsBefore};

use crate::error::ElfErr;
use crate::header::ProgramHeader;
use crate::overlap::{by_start, first_overlap};
use std::alloc::{AllocError, Global};

// The headers of the segments with memory.
fn with_memory(alloc: Global, headers: &[ProgramHeader]) -> Result<Vec<ProgramHeader>, AllocError>
    ensures { IfOk result (λ v. v.items ≡ filter has_memory headers.now) }
{
    headers
        .iter()
        .copied()
        .filter(|h| h.has_memory())
        .collect(alloc)
}

/// The same in ascending order of address.
pub(crate) fn by_address(
    alloc: Global,
    headers: &[ProgramHeader],
) -> Result<Vec<ProgramHeader>, AllocError>
    ensures { IfOk result (λ v. Ascends headers.now v.items) }
{
    let mut segments = with_memory(alloc, headers)?;
    segments.sort_unstable_by_key(|h| h.p_vaddr);
    Ok(segments)
}

// Whether each segment ends at or before the start of the next.
fn are_apart(segments: &[ProgramHeader]) -> bool
    ensures { IsTrue result ↔ AllAdjacentBelow EndsBefore segments.now (length segments.now) }
{
    segments.is_sorted_by(|a, b| a.end() <= u128::from(b.p_vaddr))
}

fn first_in_window(headers: &[ProgramHeader]) -> Option<usize>
    ensures first { result ≡ position is_in_window headers.now }
    ensures within { IfSome result (λ i. i < length headers.now) }
{
    headers.iter().position(|h| h.is_in_window())
}

/// That no two segments share an address. Where some do, neighbours in ascending order do.
pub(crate) fn check_overlaps(
    alloc: Global,
    file: &[u8],
    headers: &[ProgramHeader],
    segments: &[ProgramHeader],
) -> Result<(), ElfErr>
    requires all { headers.now ≡ headers_of file.now }
    requires few { length headers.now < 2 ^ 16 }
    requires passed { PassesFirst 9 file.now }
    requires ascends { Ascends headers.now segments.now }
    ensures ok { OnOk result (PassesFirst 10 file.now) }
    ensures err { IfErr result (IsAnswer file.now) }
{
    if are_apart(segments) {
        return Ok(());
    }
    let extents = by_start(alloc, headers)?;
    match first_overlap(headers, &extents) {
        Some((i, j)) => Err(ElfErr::Overlap(i as u16, j as u16)),
        None => Ok(()),
    }
}

/// That no segment shares an address with a window.
pub(crate) fn check_windows(file: &[u8], headers: &[ProgramHeader]) -> Result<(), ElfErr>
    requires all { headers.now ≡ headers_of file.now }
    requires few { length headers.now < 2 ^ 16 }
    requires passed { PassesFirst 10 file.now }
    ensures ok { OnOk result (PassesFirst 11 file.now) }
    ensures err { IfErr result (Refused file.now) }
{
    match first_in_window(headers) {
        Some(index) => Err(ElfErr::WindowClash(index as u16)),
        None => Ok(()),
    }
}
