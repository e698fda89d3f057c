//! How far the chunks so far lead in each air.
ghost use Rattle.std.specs.Prelude.{◌≡◌, ◌≤◌, ◌^◌, ◌∷◌, [], ◌++◌, List, length};
ghost use Rattle.zk_layout.specs.declared.air.Air.{Air};
ghost use Rattle.planner.specs.declared.counts.Counts.{Counts};
ghost use Rattle.planner.specs.Rows.{IsOfChunk};
ghost use Rattle.planner.specs.Track.{IsTrack, track_in};

use crate::Counts;
use zk_layout::Air;

/// An air's rows so far, and where to look for those of the job that isn't whole yet.
#[derive(Clone, Copy)]
pub struct Track {
    pub rows: u64,
    /// A chunk before which that job takes nothing.
    pub chunk: u32,
    /// The air's rows before that chunk.
    pub before: u64,
}

impl Track {
    // Before the first chunk.
    fn new() -> Self
        ensures { result ≡ record { rows = 0; chunk = 0; before = 0 } }
    {
        Track {
            rows: 0,
            chunk: 0,
            before: 0,
        }
    }

    // Where the last job became whole within the new chunk, the next one begins there, or after it.
    fn after(self, air: Air, counts: &Counts, chunk: u32) -> Self
        requires low { self.rows ≤ 2 ^ 32 }
        requires few { IsOfChunk counts.now }
        ensures { (known : List Counts) → length known ≡ chunk → IsTrack air known self → IsTrack air (known ++ counts.now ∷ []) result }
    {
        let size = u64::from(air.rows());
        let rows = self.rows + u64::from(counts.rows_in(air));
        if self.rows / size < rows / size {
            Track {
                rows,
                chunk,
                before: self.rows,
            }
        } else {
            Track { rows, ..self }
        }
    }
}

/// The track of each air that is cut into jobs.
#[derive(Clone, Copy)]
pub struct Tracks {
    main: Track,
    binary: Track,
    shift: Track,
    arith: Track,
    align: Track,
}

impl Tracks {
    /// Before the first chunk.
    pub fn new() -> Self
        ensures { (air : Air) → IsTrack air [] (track_in air result) }
    {
        Tracks {
            main: Track::new(),
            binary: Track::new(),
            shift: Track::new(),
            arith: Track::new(),
            align: Track::new(),
        }
    }

    /// The air's track; Mem and Out have no rows.
    #[tactic(auto, unfolding(crate::specs::Track::track_in))]
    pub fn of(&self, air: Air) -> Track
        ensures { result ≡ track_in air self.now }
    {
        match air {
            Air::Main => self.main,
            Air::Binary => self.binary,
            Air::Shift => self.shift,
            Air::Arith => self.arith,
            Air::Align => self.align,
            Air::Mem | Air::Out => Track::new(),
        }
    }

    /// The tracks after one more chunk, of this number.
    pub fn after(&self, counts: &Counts, chunk: u32) -> Self
        requires low { (air : Air) → (track_in air self.now).rows ≤ 2 ^ 32 }
        requires few { IsOfChunk counts.now }
        ensures { (known : List Counts) → length known ≡ chunk → ((air : Air) → IsTrack air known (track_in air self.now)) → (air : Air) → IsTrack air (known ++ counts.now ∷ []) (track_in air result) }
    {
        Tracks {
            main: self.of(Air::Main).after(Air::Main, counts, chunk),
            binary: self.of(Air::Binary).after(Air::Binary, counts, chunk),
            shift: self.of(Air::Shift).after(Air::Shift, counts, chunk),
            arith: self.of(Air::Arith).after(Air::Arith, counts, chunk),
            align: self.of(Air::Align).after(Air::Align, counts, chunk),
        }
    }
}
