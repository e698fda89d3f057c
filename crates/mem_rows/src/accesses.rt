//! The accesses of a run, kept by key.
ghost use Rattle.std.specs.Prelude.{◌≡◌, ◌+◌, ◌^◌, ◌<◌, ◌≤◌, ◌++◌, ◌∷◌, [], ◌↔◌, IsTrue, ℕ, List, All, IfOk, OnOk};
ghost use Rattle.rv_model.specs.Image.{Img};
ghost use Rattle.min_trace.specs.Chunk.{IsChunk, first_step};
ghost use Rattle.chain_pool.specs.Lists.{list_of};
ghost use Rattle.mem_rows.specs.declared.access.Access.{Access as AnyAccess};
ghost use Rattle.mem_rows.specs.Accesses.{last_reads};
ghost use Rattle.mem_rows.specs.Order.{in_order};
ghost use Rattle.mem_rows.specs.Rows.{mem_tables};
ghost use Rattle.mem_rows.specs.Kept.{Keeps, KeepsTo, Adds};

use crate::Access;
use crate::access::END;
use crate::initial::first_accesses;
use crate::instances::tables_of;
use chain_pool::{Pool, Walk};
use gold::Table;
use min_trace::{Chunk, Replay};
use rv_model::{Image, Public};
use std::alloc::{AllocError, Global};
use std::marker::Model;

/// The accesses so far. Contracts see them as a list for each key.
#[derive(Drop)]
pub struct Accesses {
    alloc: Global,
    pool: Pool<Access>,
}

impl Model for Accesses {
    ghost use Rattle.std.specs.Prelude.{List, ℕ};
    ghost use Rattle.mem_rows.specs.declared.access.Access.{Access};

    ghost Value = { List (ℕ × List Access) };

    ghost use Rattle.mem_rows.specs.Kept.{AreInReach};

    ghost view = { λ a. a.pool };

    ghost invariant = { λ a. AreInReach a.pool };
}

#[inline]
fn key_of(access: &Access) -> u64
    ensures value { result ≡ access.now.key }
    ensures small { result < 2 ^ 32 }
{
    u64::from(access.key)
}

fn push_all(all: &mut Vec<Access>, walk: Walk<'_, Access>) -> Result<(), AllocError>
    ensures { OnOk result (all.new.items ≡ all.old.items ++ walk.entry) }
{
    all.extend(walk)?;
    Ok(())
}

impl Accesses {
    // No accesses.
    pub(crate) fn empty(alloc: Global) -> Accesses
        ensures { result ≡ [] }
    {
        Accesses {
            alloc,
            pool: Pool::new(alloc),
        }
    }

    // Whether the key has no access so far.
    pub(crate) fn has_none(&self, key: u32) -> bool
        ensures { IsTrue result ↔ (list_of self.now key ≡ []) }
    {
        self.pool.walk(u64::from(key)).next().is_none()
    }

    // Puts an access behind those of its key.
    pub(crate) fn put(&mut self, access: Access) -> Result<(), AllocError>
        requires { access.time ≤ END }
        ensures { OnOk result (Adds self.old self.new (access ∷ [])) }
    {
        let key = key_of(&access);
        self.pool.append(key, access)?;
        Ok(())
    }

    // All accesses, key by key.
    fn ordered(&self) -> Result<Vec<Access>, AllocError>
        ensures ordered { IfOk result (λ v. (xs : List AnyAccess) → Keeps self.now xs → v.items ≡ in_order xs) }
        ensures times { IfOk result (λ v. All (λ (a : AnyAccess). a.time ≤ END) v.items) }
    {
        let keys = self.pool.keys()?;
        let mut all = Vec::new(self.alloc);
        for key in &keys {
            push_all(&mut all, self.pool.walk(*key))?;
        }
        Ok(all)
    }

    /// The accesses before the run of the image: each doubleword that isn't 0 is written at time 0.
    pub fn new(alloc: Global, image: &Image) -> Result<Accesses, AllocError>
        ensures { IfOk result (λ kept. KeepsTo image.now 0 kept) }
    {
        first_accesses(alloc, image)
    }

    /// Adds the accesses of the next chunk of the image's run. After a refusal the accesses are to be dropped.
    pub fn add_chunk(&mut self, image: &Image, chunk: &Chunk) -> Result<(), AllocError>
        requires chunk { IsChunk image.now chunk.now }
        requires next { KeepsTo image.now (first_step chunk.now.number) self.old }
        ensures { OnOk result (KeepsTo image.now (first_step chunk.now.number + chunk.now.steps) self.new) }
    {
        let mut replay = Replay::new(image, chunk);
        while let Some(step) = replay.next() {
            self.push_step(&step)?;
        }
        Ok(())
    }

    /// The Mem tables of the run, where all its chunks were added and this is what it publishes: for each image and number of
    /// steps for which the accesses are those so far.
    pub fn finish(self, public: &Public) -> Result<Vec<Table>, AllocError>
        ensures { IfOk result (λ tables. (image : Img) (n : ℕ) → KeepsTo image n self → tables.items ≡ mem_tables image n public.now) }
    {
        let mut accesses = self;
        let alloc = accesses.alloc;
        accesses.push_last(public)?;
        let all = accesses.ordered()?;
        drop(accesses);
        let tables = tables_of(alloc, &all)?;
        Ok(tables)
    }
}
