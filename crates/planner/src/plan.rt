//! The plan.
ghost use Rattle.std.specs.Prelude.{◌≡◌, ◌≤◌, ◌<◌, ◌∷◌, [], ◌++◌, length, IfOk, OnOk, OnErr};
ghost use Rattle.std.specs.List.{flat_map};
ghost use Rattle.zk_layout.specs.declared.air.Air.{Air};
ghost use Rattle.planner.specs.Rows.{IsOfChunk};
ghost use Rattle.planner.specs.Jobs.{airs, added, finished, rest};
ghost use Rattle.planner.specs.Track.{IsTrack, IsNext, made_of, track_in};

use crate::cutting::make_job;
use crate::track::Tracks;
use crate::{Counts, Job};
use min_trace::MOST_CHUNKS;
use std::alloc::{AllocError, Global};
use std::marker::Model;
use zk_layout::Air;

// The air's job that the last chunk made whole, if it did.
fn push_whole(
    alloc: Global,
    found: &mut Vec<Job>,
    counts: &[Counts],
    air: Air,
    old: &Tracks,
    new: &Tracks,
) -> Result<(), AllocError>
    requires few { length counts.now ≤ MOST_CHUNKS }
    requires next { IsNext air counts.now (track_in air old.now) (track_in air new.now) }
    ensures { OnOk result (found.new.items ≡ found.old.items ++ made_of air counts.now old.now new.now) }
{
    let size = u64::from(air.rows());
    let track = old.of(air);
    let instance = track.rows / size;
    if instance < new.of(air).rows / size {
        let job = make_job(
            alloc,
            counts,
            air,
            instance as u32,
            track.chunk,
            track.before,
        )?;
        found.push(job)?;
    }
    Ok(())
}

// The jobs that the last chunk made whole.
fn jobs_made(
    alloc: Global,
    counts: &[Counts],
    old: &Tracks,
    new: &Tracks,
) -> Result<Vec<Job>, AllocError>
    requires few { length counts.now ≤ MOST_CHUNKS }
    requires next { (air : Air) → IsNext air counts.now (track_in air old.now) (track_in air new.now) }
    ensures { IfOk result (λ v. v.items ≡ flat_map (λ air. made_of air counts.now old.now new.now) airs) }
{
    let mut found = Vec::new(alloc);
    push_whole(alloc, &mut found, counts, Air::Main, old, new)?;
    push_whole(alloc, &mut found, counts, Air::Binary, old, new)?;
    push_whole(alloc, &mut found, counts, Air::Shift, old, new)?;
    push_whole(alloc, &mut found, counts, Air::Arith, old, new)?;
    push_whole(alloc, &mut found, counts, Air::Align, old, new)?;
    Ok(found)
}

// The air's job that isn't whole, if it has a row.
fn push_rest(
    alloc: Global,
    found: &mut Vec<Job>,
    counts: &[Counts],
    air: Air,
    tracks: &Tracks,
) -> Result<(), AllocError>
    requires few { length counts.now ≤ MOST_CHUNKS }
    requires track { IsTrack air counts.now (track_in air tracks.now) }
    ensures { OnOk result (found.new.items ≡ found.old.items ++ rest air counts.now) }
{
    let size = u64::from(air.rows());
    let track = tracks.of(air);
    if track.rows % size != 0 {
        let instance = (track.rows / size) as u32;
        let job = make_job(alloc, counts, air, instance, track.chunk, track.before)?;
        found.push(job)?;
    }
    Ok(())
}

// The jobs that aren't whole and have a row.
#[tactic(auto, unfolding(crate::specs::Jobs::finished))]
fn jobs_left(alloc: Global, counts: &[Counts], tracks: &Tracks) -> Result<Vec<Job>, AllocError>
    requires few { length counts.now ≤ MOST_CHUNKS }
    requires tracks { (air : Air) → IsTrack air counts.now (track_in air tracks.now) }
    ensures { IfOk result (λ v. v.items ≡ finished counts.now) }
{
    let mut found = Vec::new(alloc);
    push_rest(alloc, &mut found, counts, Air::Main, tracks)?;
    push_rest(alloc, &mut found, counts, Air::Binary, tracks)?;
    push_rest(alloc, &mut found, counts, Air::Shift, tracks)?;
    push_rest(alloc, &mut found, counts, Air::Arith, tracks)?;
    push_rest(alloc, &mut found, counts, Air::Align, tracks)?;
    Ok(found)
}

/// Which rows of which chunks each instance takes. Contracts see a plan as the list of the counts that were added since it
/// was new: the k-th are those of chunk k.
#[derive(Drop)]
pub struct Plan {
    alloc: Global,
    counts: Vec<Counts>,
    tracks: Tracks,
}

impl Model for Plan {
    ghost use Rattle.std.specs.Prelude.{List};
    ghost use Rattle.planner.specs.declared.counts.Counts.{Counts};
    ghost use Rattle.planner.specs.Track.{IsKept};

    ghost Value = { List Counts };

    ghost view = { λ p. p.counts.items };

    ghost invariant = { λ p. IsKept p.counts.items p.tracks };
}

impl Plan {
    /// The plan of a run of which nothing is known yet. It takes no memory.
    pub fn new(alloc: Global) -> Self
        ensures { result ≡ [] }
    {
        Plan {
            alloc,
            counts: Vec::new(alloc),
            tracks: Tracks::new(),
        }
    }

    /// Adds the counts of the next chunk, and hands out the jobs that it makes whole, in order of air. An `Err` changes
    /// nothing. A job costs a walk from the chunk in which it begins to the new one, so that all jobs of a run together
    /// cost a few steps for each chunk.
    pub fn add(&mut self, counts: &Counts) -> Result<Vec<Job>, AllocError>
        requires room { length self.old < MOST_CHUNKS }
        requires few { IsOfChunk counts.now }
        ensures jobs { IfOk result (λ v. v.items ≡ added self.old counts.now) }
        ensures ok { OnOk result (self.new ≡ self.old ++ counts.now ∷ []) }
        ensures err { OnErr result (self.new ≡ self.old) }
    {
        let tracks = self.tracks.after(counts, self.counts.len() as u32);
        self.counts.push(*counts)?;
        match jobs_made(self.alloc, &self.counts, &self.tracks, &tracks) {
            Ok(jobs) => {
                self.tracks = tracks;
                Ok(jobs)
            }
            Err(e) => {
                let _ = self.counts.pop();
                Err(e)
            }
        }
    }

    /// Hands out the jobs that aren't whole and have a row, in order of air; the plan is then as new. An `Err` changes
    /// nothing.
    pub fn finish(&mut self) -> Result<Vec<Job>, AllocError>
        ensures jobs { IfOk result (λ v. v.items ≡ finished self.old) }
        ensures ok { OnOk result (self.new ≡ []) }
        ensures err { OnErr result (self.new ≡ self.old) }
    {
        let jobs = jobs_left(self.alloc, &self.counts, &self.tracks)?;
        self.counts.clear();
        self.tracks = Tracks::new();
        Ok(jobs)
    }
}
