//! Program headers.
ghost use Rattle.std.specs.Prelude.{◌≡◌, ◌+◌};
ghost use Rattle.elf_load.specs.Header.{is_load, has_memory, is_executable, is_dynamic, lacks_bytes, is_out_of_range, holds_word};
ghost use Rattle.elf_load.specs.Layout.{meets, overlaps, is_in_window};

use rv_model::{INPUT_LEN, INPUT_START, MEMORY_END, OUTPUT_LEN, OUTPUT_START};

const PT_LOAD: u32 = 1;

const PT_DYNAMIC: u32 = 2;

const PT_INTERP: u32 = 3;

const PF_X: u32 = 1;

/// The input window and the output window: the first address, and how many there are.
const INPUT_WINDOW: (u64, u64) = (INPUT_START, INPUT_LEN);

const OUTPUT_WINDOW: (u64, u64) = (OUTPUT_START, OUTPUT_LEN as u64);

/// A program header of an ELF64 file (System V gABI, "Program Header").
#[derive(Clone, Copy, Debug, PartialEq, Eq)]
pub struct ProgramHeader {
    pub p_type: u32,
    pub p_flags: u32,
    pub p_offset: u64,
    pub p_vaddr: u64,
    pub p_filesz: u64,
    pub p_memsz: u64,
}

// Two numbers' sum, which may pass 64 bits.
fn sum(a: u64, b: u64) -> u128
    ensures { result ≡ a + b }
{
    u128::from(a) + u128::from(b)
}

// Whether two ranges, each a first address and a length, share an address.
fn ranges_meet(a: (u64, u64), b: (u64, u64)) -> bool
    ensures { result ≡ meets a.0 a.1 b.0 b.1 }
{
    0 < a.1 && 0 < b.1 && u128::from(a.0) < sum(b.0, b.1) && u128::from(b.0) < sum(a.0, a.1)
}

impl ProgramHeader {
    /// A segment that is loaded.
    pub(crate) fn is_load(&self) -> bool
        ensures { result ≡ is_load self.now }
    {
        self.p_type == PT_LOAD
    }

    /// A segment that has memory.
    pub(crate) fn has_memory(&self) -> bool
        ensures { result ≡ has_memory self.now }
    {
        self.is_load() && 0 < self.p_memsz
    }

    pub(crate) fn is_executable(&self) -> bool
        ensures { result ≡ is_executable self.now }
    {
        self.p_flags & PF_X != 0
    }

    /// What only a dynamic file has.
    pub(crate) fn is_dynamic(&self) -> bool
        ensures { result ≡ is_dynamic self.now }
    {
        self.p_type == PT_DYNAMIC || self.p_type == PT_INTERP
    }

    /// A segment whose bytes are not all in the file, or are more than its memory.
    pub(crate) fn lacks_bytes(&self, file_len: u64) -> bool
        ensures { result ≡ lacks_bytes file_len self.now }
    {
        self.is_load()
            && (u128::from(file_len) < sum(self.p_offset, self.p_filesz)
                || self.p_memsz < self.p_filesz)
    }

    pub(crate) fn is_out_of_range(&self) -> bool
        ensures { result ≡ is_out_of_range self.now }
    {
        self.has_memory() && u128::from(MEMORY_END) < self.end()
    }

    /// The address after the last one.
    pub(crate) fn end(&self) -> u128
        ensures { result ≡ self.now.p_vaddr + self.now.p_memsz }
    {
        sum(self.p_vaddr, self.p_memsz)
    }

    fn range(&self) -> (u64, u64)
        ensures start { result.0 ≡ self.now.p_vaddr }
        ensures len { result.1 ≡ self.now.p_memsz }
    {
        (self.p_vaddr, self.p_memsz)
    }

    /// Whether two segments share an address.
    pub(crate) fn overlaps(&self, other: &ProgramHeader) -> bool
        ensures { result ≡ overlaps self.now other.now }
    {
        self.is_load() && other.is_load() && ranges_meet(self.range(), other.range())
    }

    /// Whether a segment shares an address with a window.
    pub(crate) fn is_in_window(&self) -> bool
        ensures { result ≡ is_in_window self.now }
    {
        self.is_load()
            && (ranges_meet(self.range(), INPUT_WINDOW) || ranges_meet(self.range(), OUTPUT_WINDOW))
    }

    /// Whether an executable segment has the four bytes at an address.
    pub(crate) fn holds_word(&self, address: u64) -> bool
        ensures { result ≡ holds_word address self.now }
    {
        self.is_load()
            && self.is_executable()
            && self.p_vaddr <= address
            && sum(address, 4) <= self.end()
    }
}
