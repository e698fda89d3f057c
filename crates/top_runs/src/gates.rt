//! Gates that hold threads until others have come.
use std::sync::atomic::{AtomicU64, Ordering};
use std::thread;
use zk_layout::Air;
use zk_top::Gate;

/// A hold ends after so many turns, whoever has come.
const MOST_TURNS: u64 = 1_000_000_000;

/// Which calls of a gate came.
#[derive(Drop)]
pub struct Calls {
    /// How many chunks were published, and how many of them with the number that is next.
    pub published: AtomicU64,
    pub in_order: AtomicU64,
    /// How often a worker has entered.
    pub entered: AtomicU64,
    /// How many holds ended because those had come for whom they waited.
    pub met: AtomicU64,
}

impl Calls {
    pub fn new() -> Calls {
        Calls {
            published: AtomicU64::new(0),
            in_order: AtomicU64::new(0),
            entered: AtomicU64::new(0),
            met: AtomicU64::new(0),
        }
    }

    // Notes that the chunk was published.
    fn note(&self, chunk: u32) {
        if self.published.fetch_add(1, Ordering::SeqCst) == u64::from(chunk) {
            self.in_order.fetch_add(1, Ordering::SeqCst);
        }
    }

    // Holds the thread until the counter has come to the number, and notes that it has.
    fn hold(&self, counter: &AtomicU64, number: u64) {
        for turn in 0..MOST_TURNS {
            if counter.load(Ordering::SeqCst) >= number {
                self.met.fetch_add(1, Ordering::SeqCst);
                return;
            }
            if turn % 100 == 0 {
                thread::yield_now();
            }
        }
    }
}

/// The first that enters is held until chunk 15 is published, and chunk 4 until somebody has entered: no thread alone can end
/// both holds.
#[derive(Drop)]
pub struct BothSides(pub Calls);

impl Gate for BothSides {
    fn published(&self, chunk: u32) {
        self.0.note(chunk);
        if chunk == 4 {
            self.0.hold(&self.0.entered, 1);
        }
    }

    fn enter(&self, _air: Air, _instance: u32) {
        if self.0.entered.fetch_add(1, Ordering::SeqCst) == 0 {
            self.0.hold(&self.0.published, 16);
        }
    }
}

/// The first four that enter are held until four have, and so is chunk 15: fewer than four workers can't end these holds.
#[derive(Drop)]
pub struct FourAtOnce(pub Calls);

impl Gate for FourAtOnce {
    fn published(&self, chunk: u32) {
        self.0.note(chunk);
        if chunk == 15 {
            self.0.hold(&self.0.entered, 4);
        }
    }

    fn enter(&self, _air: Air, _instance: u32) {
        if self.0.entered.fetch_add(1, Ordering::SeqCst) < 4 {
            self.0.hold(&self.0.entered, 4);
        }
    }
}
