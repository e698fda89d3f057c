//! The instances of a file, of which a part has come.
ghost use Rattle.std.specs.Prelude.{◌≡◌, ◌≢◌, ℕ, suc, ◌<◌, ◌≤◌, ◌+◌, ◌^◌, ◌++◌, [], List, length, drop, true, IfOk, MatchBool, MatchOption, ◌-◌, MatchResult, None};
ghost use Rattle.gold.specs.Shapes.{Place, places_from};
ghost use Rattle.gold.specs.declared.instances.Table.{Table};
ghost use Rattle.tab_file.specs.Parts.{left, places_left, Waits, Done, BodyAt, BodyFails, reach};

use crate::coming::Coming;
use crate::fault::{TabErr, TabKind};
use crate::partial::Partial;
use gold::{AirShape, Tables};
use std::alloc::{AllocError, Global};

/// The instances of a file, of which a part has come.
#[derive(Drop)]
pub(crate) struct Body {
    alloc: Global,
    /// Those that haven't begun.
    coming: Coming,
    /// The instance that has begun, if one has; and the offset up to which all has passed.
    partial: Partial,
    /// Whether an instance has begun.
    going: bool,
}

impl Body {
    /// All instances of these airs, the first of which is to begin at an offset.
    pub(crate) fn new(
        alloc: Global,
        airs: Vec<AirShape>,
        counts: Vec<u32>,
        at: u64,
    ) -> Result<Body, AllocError>
        ensures counts { IfOk result (λ b. b.coming.counts.items ≡ counts.items) }
        ensures reach { IfOk result (λ b. reach b.partial ≡ at) }
        ensures stands { IfOk result (λ b. (file rest : List ℕ) → at ≤ length file → drop at file ≡ rest → BodyAt file (length airs.items) at (places_from 0 airs.items counts.items) [] rest b) }
    {
        let mut body = Body {
            alloc,
            coming: Coming::new(airs, counts),
            partial: Partial::none(alloc, at),
            going: false,
        };
        body.begin()?;
        Ok(body)
    }

    /// How many instances of each air there are.
    pub(crate) fn counts(&self) -> &[u32]
        ensures { result.now ≡ self.now.coming.counts.items }
    {
        self.coming.counts()
    }

    /// Whether an instance has begun of which not all has come. Else all have come.
    pub(crate) fn is_going(&self) -> bool
        ensures { result ≡ self.now.going }
    {
        self.going
    }

    /// The offset after all bytes that have come.
    pub(crate) fn end(&self) -> u64
        requires { reach self.now.partial < 2 ^ 64 }
        ensures { result ≡ reach self.now.partial }
    {
        self.partial.reach()
    }

    /// The next instance begins, if there is one, where what has passed ends.
    fn begin(&mut self) -> Result<(), AllocError>
        requires { self.old.partial.part.items ≡ [] }
        ensures counts { self.new.coming.counts.items ≡ self.old.coming.counts.items }
        ensures reach { IfOk result (λ _. reach self.new.partial ≡ self.old.partial.at) }
        ensures less { IfOk result (λ _. MatchBool self.new.going (length (left self.new.coming) < length (left self.old.coming)) (Unit {0})) }
        ensures stands { IfOk result (λ _. (file : List ℕ) (n start : ℕ) (ps before : List Place) (so_far : List Table) (rest : List ℕ) → n ≡ length self.old.coming.airs.items → ps ≡ before ++ left self.old.coming → Done file n start self.old.partial.at before so_far → drop self.old.partial.at file ≡ rest → BodyAt file n start ps so_far rest self.new) }
    {
        let at = self.partial.at();
        self.going = false;
        if let Some(due) = self.coming.next() {
            self.partial = Partial::new(self.alloc, due, at)?;
            self.going = true;
        }
        Ok(())
    }

    /// Takes what a piece has of the instance that has begun. Where all of it has come, its table is added, the next
    /// instance begins, and the number of bytes is told; else all bytes were taken.
    fn take_one(&mut self, piece: &[u8], tables: &mut Tables) -> Result<Option<usize>, TabErr>
        requires going { self.old.going ≡ true }
        requires room { reach self.old.partial + length piece.now < 2 ^ 64 }
        ensures counts { self.new.coming.counts.items ≡ self.old.coming.counts.items }
        ensures count { IfOk result (λ found. MatchOption found (Unit {0}) (λ k. k ≤ length piece.now)) }
        ensures reach { IfOk result (λ found. MatchOption found (reach self.new.partial ≤ reach self.old.partial + length piece.now) (λ k. reach self.new.partial + (length piece.now - k) ≤ reach self.old.partial + length piece.now)) }
        ensures less { IfOk result (λ found. MatchOption found (Unit {0}) (λ k. MatchBool self.new.going (length (left self.new.coming) < length (left self.old.coming)) (Unit {0}))) }
        ensures waits { IfOk result (λ found. MatchOption found (Waits self.new.partial) (λ k. Unit {0})) }
        ensures takes { (file : List ℕ) (n start : ℕ) (ps : List Place) (before : List Table) (more : List ℕ) → BodyAt file n start ps (before ++ tables.old) (piece.now ++ more) self.old → MatchResult result (λ found. MatchOption found (BodyAt file n start ps (before ++ tables.new) more self.new) (λ k. BodyAt file n start ps (before ++ tables.new) (drop k piece.now ++ more) self.new)) (λ e. BodyFails file n start ps e) }
    {
        let count = self.partial.take(piece)?;
        if !self.partial.is_whole() {
            return Ok(None);
        }
        tables.push(self.partial.take_table())?;
        self.begin()?;
        Ok(Some(count))
    }

    /// Takes a piece of the file, and adds to the tables those that become whole.
    pub(crate) fn take(&mut self, piece: &[u8], tables: &mut Tables) -> Result<(), TabErr>
        requires room { reach self.old.partial + length piece.now < 2 ^ 64 }
        ensures counts { self.new.coming.counts.items ≡ self.old.coming.counts.items }
        ensures reach { IfOk result (λ _. reach self.new.partial ≤ reach self.old.partial + length piece.now) }
        ensures waits { IfOk result (λ _. self.new.going ≡ true → Waits self.new.partial) }
        ensures takes { (file : List ℕ) (n start : ℕ) (ps : List Place) (before : List Table) (more : List ℕ) → BodyAt file n start ps (before ++ tables.old) (piece.now ++ more) self.old → MatchResult result (λ _. BodyAt file n start ps (before ++ tables.new) more self.new) (λ e. BodyFails file n start ps e) }
    {
        let mut done = 0;
        while self.going {
            match self.take_one(&piece[done..], tables)? {
                Some(count) => done += count,
                None => return Ok(()),
            }
        }
        if done < piece.len() {
            return Err(TabErr {
                kind: TabKind::Trailing,
                at: self.partial.at(),
            });
        }
        Ok(())
    }
}
