//! The loader.
ghost use Rattle.std.specs.Prelude.{◌≡◌, ◌⊎◌, ◌<◌, ◌≤◌, ◌+◌, ◌^◌, All, length, map, OnOk, IfOk, IfErr, Ok, Err};
ghost use Rattle.std.specs.List.{list_any};
ghost use Rattle.rv_model.specs.Image.{Img};
ghost use Rattle.elf_load.specs.File.{headers_of};
ghost use Rattle.elf_load.specs.Header.{holds_word};
ghost use Rattle.elf_load.specs.Refusal.{data_size, Refused};
ghost use Rattle.elf_load.specs.Progress.{PassesFirst};
ghost use Rattle.elf_load.specs.Layout.{Ascends, IsPlaced};
ghost use Rattle.elf_load.specs.Loads.{segment, Loads};

use crate::error::ElfErr;
use crate::fields::u64_at;
use crate::file_header::check_file_header;
use crate::header::ProgramHeader;
use crate::layout::{by_address, check_overlaps, check_windows};
use crate::program_headers::{check_headers, program_headers};
use rv_model::{INPUT_LEN, Image, MOST_LOADED, Segment};
use std::alloc::{AllocError, Global};

// How many bytes the segments have in the file.
fn data_size(headers: &[ProgramHeader]) -> u128
    requires { length headers.now < 2 ^ 16 }
    ensures { result ≡ data_size headers.now }
{
    headers
        .iter()
        .filter(|h| h.is_load())
        .map(|h| u128::from(h.p_filesz))
        .sum()
}

// Whether an executable segment has the four bytes at an address.
fn has_word(headers: &[ProgramHeader], address: u64) -> bool
    ensures { result ≡ list_any (holds_word address) headers.now }
{
    headers.iter().any(|h| h.holds_word(address))
}

// The tests of all segments together.
fn check_load(file: &[u8], headers: &[ProgramHeader]) -> Result<(), ElfErr>
    requires whole { 64 ≤ length file.now }
    requires all { headers.now ≡ headers_of file.now }
    requires few { length headers.now < 2 ^ 16 }
    requires passed { PassesFirst 11 file.now }
    ensures ok { OnOk result (PassesFirst 13 file.now) }
    ensures err { IfErr result (Refused file.now) }
{
    let size = data_size(headers);
    if size > u128::from(MOST_LOADED) {
        return Err(ElfErr::TooMuchData(size.min(u128::from(u64::MAX)) as u64));
    }
    let entry = u64_at(file, 24);
    if entry % 4 != 0 || !has_word(headers, entry) {
        return Err(ElfErr::EntryOutside(entry));
    }
    Ok(())
}

fn segment_of(alloc: Global, file: &[u8], header: &ProgramHeader) -> Result<Segment, AllocError>
    requires { IsPlaced (length file.now) header.now }
    ensures { IfOk result (λ s. s ≡ segment file.now header.now) }
{
    let start = header.p_offset as usize;
    let bytes = Vec::from_slice(alloc, &file[start..start + header.p_filesz as usize])?;
    Ok(Segment {
        start: header.p_vaddr as u32,
        len: header.p_memsz,
        exec: header.is_executable(),
        bytes,
    })
}

fn segments_of(
    alloc: Global,
    file: &[u8],
    headers: &[ProgramHeader],
) -> Result<Vec<Segment>, AllocError>
    requires { All (IsPlaced (length file.now)) headers.now }
    ensures { IfOk result (λ v. v.items ≡ map (segment file.now) headers.now) }
{
    let mut segments = Vec::new(alloc);
    for header in headers {
        segments.push(segment_of(alloc, file, header)?)?;
    }
    Ok(segments)
}

// The image of a file that passes each test.
fn image_of(
    alloc: Global,
    file: &[u8],
    headers: &[ProgramHeader],
    input: &[u8],
) -> Result<Image, AllocError>
    requires whole { 64 ≤ length file.now }
    requires passed { PassesFirst 13 file.now }
    requires ascends { Ascends (headers_of file.now) headers.now }
    requires fits { length input.now + 8 ≤ INPUT_LEN }
    ensures { IfOk result (Loads file.now input.now) }
{
    let segments = segments_of(alloc, file, headers)?;
    let input = Vec::from_slice(alloc, input)?;
    Image::new(alloc, u64_at(file, 24), segments, input)
}

/// Loads a static ELF64 file for RISC-V (System V gABI, "ELF Header" and "Program Header"), with an
/// input that fits into the input window after its length, and decodes its instructions. It takes memory for the file's bytes
/// alone, whatever sizes the file promises.
///
/// Each file has one image for an input, or one refusal, as `one_answer` says. `NoMemory` may come in
/// place of either; no clause says when, and the tests show that it stays away with ample memory.
pub fn load(alloc: Global, file: &[u8], input: &[u8]) -> Result<Image, ElfErr>
    requires { length input.now + 8 ≤ INPUT_LEN }
    ensures ok { IfOk result (Loads file.now input.now) }
    ensures err { IfErr result (λ e. (e ≡ ElfErr.NoMemory) ⊎ Refused file.now e) }

    // Each of the two is answered wherever it applies, unless memory runs out.
    ensures loads { (image : Img) → Loads file.now input.now image → (result ≡ Ok image) ⊎ (result ≡ Err ElfErr.NoMemory) }
    ensures refuses { (e : ElfErr) → Refused file.now e → (result ≡ Err e) ⊎ (result ≡ Err ElfErr.NoMemory) }
{
    check_file_header(file)?;
    let headers = program_headers(alloc, file)?;
    check_headers(file, &headers)?;
    let segments = by_address(alloc, &headers)?;
    check_overlaps(alloc, file, &headers, &segments)?;
    check_windows(file, &headers)?;
    check_load(file, &headers)?;
    Ok(image_of(alloc, file, &segments, input)?)
}
