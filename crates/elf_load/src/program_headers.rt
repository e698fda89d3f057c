//! The program headers and the tests of each by itself (System V gABI, "Program Header").
ghost use Rattle.std.specs.Prelude.{◌≡◌, ◌<◌, ◌≤◌, ◌+◌, ◌^◌, ◌≢◌, ◌⊎◌, length, vec_len, position, MatchOption, IfSome, OnOk, IfOk, IfErr};
ghost use Rattle.elf_load.specs.File.{e_phentsize, header_offset, headers_of};
ghost use Rattle.elf_load.specs.Header.{is_dynamic, lacks_bytes, is_out_of_range};
ghost use Rattle.elf_load.specs.Refusal.{Fails, Refused};
ghost use Rattle.elf_load.specs.Progress.{PassesFirst, IsAnswer};

use crate::error::ElfErr;
use crate::fields::{header_at, u16_at, u64_at};
use crate::header::ProgramHeader;
use std::alloc::Global;

const PHDR_LEN: u16 = 56;

// Where the program header with this index begins, if all of it is in the file.
fn header_offset(file: &[u8], index: u16) -> Option<usize>
    requires { 64 ≤ length file.now }
    ensures { MatchOption result ((e_phentsize file.now ≢ 56) ⊎ (length file.now < header_offset file.now index + 56)) (λ at. (e_phentsize file.now ≡ 56) × (at ≡ header_offset file.now index) × (at + 56 ≤ length file.now)) }
{
    let at = u128::from(u64_at(file, 32)) + 56 * u128::from(index);
    if u16_at(file, 54) == PHDR_LEN && at + 56 <= file.len() as u128 {
        Some(at as usize)
    } else {
        None
    }
}

/// All program headers, in the order of the file.
pub(crate) fn program_headers(alloc: Global, file: &[u8]) -> Result<Vec<ProgramHeader>, ElfErr>
    requires whole { 64 ≤ length file.now }
    requires passed { PassesFirst 5 file.now }
    ensures all { IfOk result (λ v. v.items ≡ headers_of file.now) }
    ensures few { IfOk result (λ v. vec_len v < 2 ^ 16) }
    ensures ok { OnOk result (PassesFirst 6 file.now) }
    ensures err { IfErr result (IsAnswer file.now) }
{
    let count = u16_at(file, 56);
    let mut headers = Vec::new(alloc);
    for index in 0..count {
        match header_offset(file, index) {
            Some(at) => headers.push(header_at(file, at))?,
            None => return Err(ElfErr::BadPhdrs(index)),
        }
    }
    Ok(headers)
}

// The first header that a test refuses.
fn first_dynamic(headers: &[ProgramHeader]) -> Option<usize>
    ensures first { result ≡ position is_dynamic headers.now }
    ensures within { IfSome result (λ i. i < length headers.now) }
{
    headers.iter().position(|h| h.is_dynamic())
}

fn first_lacking_bytes(headers: &[ProgramHeader], file_len: u64) -> Option<usize>
    ensures first { result ≡ position (lacks_bytes file_len) headers.now }
    ensures within { IfSome result (λ i. i < length headers.now) }
{
    headers.iter().position(|h| h.lacks_bytes(file_len))
}

fn first_out_of_range(headers: &[ProgramHeader]) -> Option<usize>
    ensures first { result ≡ position is_out_of_range headers.now }
    ensures within { IfSome result (λ i. i < length headers.now) }
{
    headers.iter().position(|h| h.is_out_of_range())
}

/// The tests of one program header by itself.
pub(crate) fn check_headers(file: &[u8], headers: &[ProgramHeader]) -> Result<(), ElfErr>
    requires all { headers.now ≡ headers_of file.now }
    requires few { length headers.now < 2 ^ 16 }
    requires passed { PassesFirst 6 file.now }
    ensures ok { OnOk result (PassesFirst 9 file.now) }
    ensures err { IfErr result (Refused file.now) }
{
    if let Some(index) = first_dynamic(headers) {
        return Err(ElfErr::NotStatic(index as u16));
    }
    if let Some(index) = first_lacking_bytes(headers, file.len() as u64) {
        return Err(ElfErr::FilePart(index as u16));
    }
    if let Some(index) = first_out_of_range(headers) {
        return Err(ElfErr::OutOfRange(index as u16));
    }
    Ok(())
}
