//! The first two headers whose segments overlap.
ghost use Rattle.std.specs.Prelude.{◌<◌, ◌↔◌, IsTrue, length, MatchOption, IfOk};
ghost use Rattle.std.specs.List.Sorted.{IsNonDecreasingBy};
ghost use Rattle.elf_load.specs.Layout.{HasNoPartner, IsPartner, NoneOverlaps};
ghost use Rattle.elf_load.specs.Extents.{HasExtents, NoneMeets, MeetsNext};

use crate::header::ProgramHeader;
use std::alloc::{AllocError, Global};

/// The addresses of a segment: the first one and the one after the last, with the index of its header.
#[derive(Clone, Copy)]
pub(crate) struct Extent {
    start: u64,
    end: u128,
    index: usize,
}

// The extents of the segments with memory, in the order of the headers.
fn extents(alloc: Global, headers: &[ProgramHeader]) -> Result<Vec<Extent>, AllocError>
    ensures { IfOk result (λ v. HasExtents headers.now (length headers.now) v.items) }
{
    let mut extents = Vec::new(alloc);
    for index in 0..headers.len() {
        let header = headers[index];
        if header.has_memory() {
            extents.push(Extent {
                start: header.p_vaddr,
                end: header.end(),
                index,
            })?;
        }
    }
    Ok(extents)
}

/// The extents of the segments with memory, in ascending order of address.
pub(crate) fn by_start(alloc: Global, headers: &[ProgramHeader]) -> Result<Vec<Extent>, AllocError>
    ensures all { IfOk result (λ v. HasExtents headers.now (length headers.now) v.items) }
    ensures up { IfOk result (λ v. IsNonDecreasingBy (λ e. e.start) v.items) }
{
    let mut sorted = extents(alloc, headers)?;
    sorted.sort_unstable_by_key(|e| e.start);
    Ok(sorted)
}

// Whether the k-th extent shares an address with the next, which begins no earlier.
fn meets_next(extents: &[Extent], k: usize) -> bool
    requires { k < length extents.now }
    ensures { IsTrue result ↔ MeetsNext extents.now k }
{
    k + 1 < extents.len() && u128::from(extents[k + 1].start) < extents[k].end
}

// The least index of a header whose extent shares an address with another one, or `none`. An extent
// meets one before it if it begins below their greatest end, and one behind it if it meets the next.
fn first_meeting(extents: &[Extent], none: usize) -> usize
    requires { IsNonDecreasingBy (λ e. e.start) extents.now }
    ensures { NoneMeets extents.now result }
{
    let mut first = none;
    let mut reach = 0;
    for k in 0..extents.len() {
        let extent = extents[k];
        let meets = u128::from(extent.start) < reach || meets_next(extents, k);
        reach = reach.max(extent.end);
        if meets {
            first = first.min(extent.index);
        }
    }
    first
}

// The first header after the i-th whose segment overlaps that of the i-th.
fn partner(headers: &[ProgramHeader], i: usize) -> Option<usize>
    requires { i < length headers.now }
    ensures { MatchOption result (HasNoPartner headers.now i (length headers.now)) (IsPartner headers.now i) }
{
    for j in i + 1..headers.len() {
        if headers[i].overlaps(&headers[j]) {
            return Some(j);
        }
    }
    None
}

// The first header that has a partner after it, and that partner, where none before `from` has one.
fn overlap_from(headers: &[ProgramHeader], from: usize) -> Option<(usize, usize)>
    requires { NoneOverlaps headers.now from }
    ensures { MatchOption result (NoneOverlaps headers.now (length headers.now)) (λ p. NoneOverlaps headers.now p.0 × IsPartner headers.now p.0 p.1) }
{
    for i in from..headers.len() {
        if let Some(j) = partner(headers, i) {
            return Some((i, j));
        }
    }
    None
}

/// The first header that has a partner after it, and that partner. It is found in the time of a sort: of
/// all headers whose segments meet another one the least has its partner behind it.
pub(crate) fn first_overlap(headers: &[ProgramHeader], extents: &[Extent]) -> Option<(usize, usize)>
    requires all { HasExtents headers.now (length headers.now) extents.now }
    requires up { IsNonDecreasingBy (λ e. e.start) extents.now }
    ensures { MatchOption result (NoneOverlaps headers.now (length headers.now)) (λ p. NoneOverlaps headers.now p.0 × IsPartner headers.now p.0 p.1) }
{
    overlap_from(headers, first_meeting(extents, headers.len()))
}
