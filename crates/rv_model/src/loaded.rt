//! What of an image is fetched, and the memory at the start.
ghost use Rattle.std.specs.Prelude.{◌≡◌, ℕ, ◌+◌, ◌*◌, ◌<◌, ◌≤◌, ◌^◌, Bool, nat_le, length, find};
ghost use Rattle.std.specs.Option.{option_copied};
ghost use Rattle.rv_model.specs.Image.{covers, runs_at, has, kept_if, byte_in, word_in, fetch, window_byte, initial_byte, initial_word};

use crate::{INPUT_END, INPUT_START, Image, MEMORY_WORDS, Segment};

impl Segment {
    fn starts_by(&self, address: u64) -> bool
        ensures { result ≡ nat_le self.now.start address }
    {
        u64::from(self.start) <= address
    }

    // The byte at an address at or past the start.
    fn byte(&self, address: u64) -> u8
        requires { self.now.start ≤ address }
        ensures { result ≡ byte_in self.now address }
    {
        let offset = (address - u64::from(self.start)) as usize;
        match self.bytes.get(offset) {
            Some(byte) => *byte,
            None => 0,
        }
    }

    fn word(&self, address: u64) -> u32
        requires start { self.now.start ≤ address }
        requires below { address < 2 ^ 32 }
        ensures { result ≡ word_in self.now address }
    {
        u32::from_le_bytes([
            self.byte(address),
            self.byte(address + 1),
            self.byte(address + 2),
            self.byte(address + 3),
        ])
    }

    // Whether the n bytes from the address on lie in the segment.
    fn covers(&self, address: u64, n: u64) -> bool
        requires { n ≤ 8 }
        ensures { result ≡ covers self.now address n }
    {
        let start = u64::from(self.start);
        start <= address && n <= self.len && address - start <= self.len - n
    }
}

// The byte of the input window.
fn input_byte(input: &[u8], at: usize) -> u8
    requires { length input.now < 2 ^ 32 }
    ensures { result ≡ window_byte input.now at }
{
    if at < 8 {
        (input.len() as u64).to_le_bytes()[at]
    } else {
        match input.get(at - 8) {
            Some(byte) => *byte,
            None => 0,
        }
    }
}

impl Image {
    // The last segment that starts at or before the address: no other can have it.
    fn last_from(&self, address: u64) -> Option<&Segment>
        ensures runs { find (runs_at address) self.now.segments ≡ kept_if (runs_at address) (option_copied result) }
        ensures has { find (has address) self.now.segments ≡ kept_if (has address) (option_copied result) }
    {
        let count = self.segments.partition_point(|s| s.starts_by(address));
        if count == 0 {
            None
        } else {
            Some(&self.segments[count - 1])
        }
    }

    /// The executable word at pc: the four bytes there, as they were loaded, if pc is a multiple of 4 and they all lie in
    /// one executable segment.
    #[tactic(auto, unfolding(crate::specs::Image::fetch))]
    pub fn fetch(&self, pc: u64) -> Option<u32>
        ensures { result ≡ fetch self.now pc }
    {
        if pc % 4 != 0 {
            return None;
        }
        match self.last_from(pc) {
            Some(s) if s.exec && s.covers(pc, 4) => Some(s.word(pc)),
            _ => None,
        }
    }

    // The byte at the address when the run starts.
    #[tactic(auto, unfolding(crate::specs::Image::initial_byte))]
    fn byte(&self, address: u64) -> u8
        ensures { result ≡ initial_byte self.now address }
    {
        if INPUT_START <= address && address < INPUT_END {
            return input_byte(&self.input, (address - INPUT_START) as usize);
        }
        match self.last_from(address) {
            Some(s) if s.covers(address, 1) => s.byte(address),
            _ => 0,
        }
    }

    /// The doubleword with this number when the run starts: the eight bytes from 8 * index on.
    #[tactic(auto, unfolding(crate::specs::Image::initial_word))]
    pub fn word(&self, index: u32) -> u64
        requires { index < MEMORY_WORDS }
        ensures { result ≡ initial_word self.now index }
    {
        let at = 8 * u64::from(index);
        u64::from_le_bytes([
            self.byte(at),
            self.byte(at + 1),
            self.byte(at + 2),
            self.byte(at + 3),
            self.byte(at + 4),
            self.byte(at + 5),
            self.byte(at + 6),
            self.byte(at + 7),
        ])
    }
}
