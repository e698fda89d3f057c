//! How many bytes went through a host, shown on one line that is written over.

use std::io::Print;

/// The line is written anew once so many more bytes have gone through.
const STEP: u64 = 1 << 24;

const MEGABYTE: u64 = 1_000_000;

/// Bytes that were read and written, how many steps of them were shown, and where. A number at its last value stays.
#[derive(Drop)]
pub struct Meter<S: Print> {
    screen: S,
    bytes_read: u64,
    bytes_written: u64,
    steps_shown: u64,
}

impl<S: Print> Meter<S> {
    pub fn new(screen: S) -> Self {
        Meter {
            screen,
            bytes_read: 0,
            bytes_written: 0,
            steps_shown: 0,
        }
    }

    /// So many bytes more were read.
    pub fn add_read(&mut self, count: usize) {
        self.bytes_read = self.bytes_read.saturating_add(count as u64);
        self.show();
    }

    /// So many bytes more were written.
    pub fn add_written(&mut self, count: usize) {
        self.bytes_written = self.bytes_written.saturating_add(count as u64);
        self.show();
    }

    // Writes the line where it is due. That it can't be written is no fault of the work.
    fn show(&mut self) {
        let steps = self.bytes_read.saturating_add(self.bytes_written) / STEP;
        if self.steps_shown < steps {
            self.steps_shown = steps;
            let read = self.bytes_read / MEGABYTE;
            let written = self.bytes_written / MEGABYTE;
            let _ = self
                .screen
                .print(format_args!("\rread {read} MB, written {written} MB"));
        }
    }

    /// Takes the line away, if there is one.
    pub fn clear(&mut self) {
        if 0 < self.steps_shown {
            let _ = self.screen.print("\r\x1b[K");
        }
    }
}
