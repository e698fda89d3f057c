//! Reading a file that comes in pieces, table by table.
ghost use Rattle.std.specs.Prelude.{◌≡◌, ◌≢◌, ℕ, ◌<◌, ◌≤◌, ◌+◌, ◌^◌, ◌++◌, [], List, length, IfOk, IfErr, MatchBool, MatchOption, MatchResult, None, Some};
ghost use Rattle.gold.specs.declared.instances.Table.{Table};
ghost use Rattle.gold.specs.declared.shapes.Shape.{Shape as AnyShape};
ghost use Rattle.gold.specs.declared.shapes.Profile.{Profile as AnyProfile};
ghost use Rattle.tab_file.specs.declared.fault.TabErr.{TabErr as AnyErr};
ghost use Rattle.tab_file.specs.declared.fault.TabKind.TheVariants.{NoMemory, Short};
ghost use Rattle.tab_file.specs.Reading.{promised_profile, promised_counts, TabReads, TabFails};
ghost use Rattle.tab_file.specs.Front.{ProfileHasCome, CountsHaveCome, NoneFailsYet, whole_tables, witness_of};
ghost use Rattle.tab_file.specs.Stands.{StandsFor, Feeds, Opens, IsOut, reached, taken};

use crate::body::Body;
use crate::fault::{TabErr, TabKind};
use crate::header::{Header, header_in, profile_so_far};
use gold::{Profile, Sequence, Shape, Tables};
use std::alloc::{AllocError, Global};
use std::mem;

/// A table file that is read piece by piece. Its bytes are not kept. Contracts tell for which bytes a reader stands:
/// those that were fed.
#[derive(Drop)]
pub struct TabReader {
    alloc: Global,
    shape: Shape,
    /// Why it goes on no more.
    failed: Option<TabErr>,
    profile: Option<Profile>,
    /// The bytes so far, where the header isn't whole.
    header: Vec<u8>,
    /// What follows the header, where the header is whole.
    body: Option<Body>,
}

fn is_short(kind: TabKind) -> bool
    ensures { MatchBool result (kind ≡ Short) (kind ≢ Short) }
{
    match kind {
        TabKind::Short => true,
        _ => false,
    }
}

impl TabReader {
    /// A reader of a file under a shape, of which nothing has come.
    pub fn new(alloc: Global, shape: &Shape) -> Result<TabReader, AllocError>
        ensures stands { IfOk result (λ r. StandsFor r shape.now []) }
        ensures none { whole_tables [] shape.now ≡ [] }
        ensures taken { IfOk result (λ r. taken r ≡ 0) }
    {
        let airs = Vec::from_slice(alloc, shape.airs.as_slice())?;
        let shape = Shape {
            airs: Sequence::from_vec(airs),
            form: shape.form,
        };
        let profile = profile_so_far(&[], shape.form);
        Ok(TabReader {
            alloc,
            shape,
            failed: None,
            profile,
            header: Vec::new(alloc),
            body: None,
        })
    }

    /// How many instances of each air the file has: None until all these numbers have come and passed.
    pub fn counts(&self) -> Option<&[u32]>
        ensures { (shape : AnyShape) (fed : List ℕ) → StandsFor self.now shape fed → MatchOption result (CountsHaveCome fed shape → ⊥) (λ counts. CountsHaveCome fed shape × (counts.now ≡ promised_counts fed shape)) }
    {
        match &self.body {
            Some(body) => Some(body.counts()),
            None => None,
        }
    }

    /// The profile that the file tells: None until it has come and passed. In format 1 it is Small from the start.
    pub fn profile(&self) -> Option<Profile>
        ensures { (shape : AnyShape) (fed : List ℕ) → StandsFor self.now shape fed → MatchOption result (ProfileHasCome fed shape.form → ⊥) (λ p. ProfileHasCome fed shape.form × (p ≡ promised_profile fed shape.form)) }
    {
        self.profile
    }

    /// Takes what follows the header, the bytes of which are kept.
    fn take_body(&mut self, header: Header, tables: &mut Tables) -> Result<(), TabErr>
        requires end { header.end ≤ length self.old.header.items }
        requires none { self.old.body ≡ None }
        requires empty { tables.old ≡ [] }
        ensures shape { self.new.shape ≡ self.old.shape }
        ensures failed { self.new.failed ≡ self.old.failed }
        ensures profile { self.new.profile ≡ self.old.profile }
        ensures taken { IfOk result (λ _. reached self.new.body (length self.new.header.items) ≤ length self.old.header.items) }
        ensures opens { Opens header.airs.items header.counts.items header.end self.old.header.items self.new.body tables.new result }
    {
        let bytes = mem::replace(&mut self.header, Vec::new(self.alloc));
        let Header { airs, counts, end } = header;
        let mut body = Body::new(self.alloc, airs, counts, end as u64)?;
        let read = body.take(&bytes[end..], tables);
        self.set_body(body);
        read
    }

    fn set_body(&mut self, body: Body)
        ensures { self.new ≡ record { alloc = self.old.alloc; shape = self.old.shape; failed = self.old.failed; profile = self.old.profile; header = self.old.header; body = Some body } }
    {
        self.body = Some(body);
    }

    /// Takes a piece of a file whose header wasn't whole.
    fn take_header(&mut self, piece: &[u8], tables: &mut Tables) -> Result<(), TabErr>
        requires room { length self.old.header.items + length piece.now < 2 ^ 64 }
        requires none { self.old.body ≡ None }
        requires empty { tables.old ≡ [] }
        ensures shape { self.new.shape ≡ self.old.shape }
        ensures failed { self.new.failed ≡ self.old.failed }
        ensures taken { IfOk result (λ _. reached self.new.body (length self.new.header.items) ≤ length self.old.header.items + length piece.now) }
        ensures feeds { Feeds self.old self.new piece.now tables.new result }
    {
        self.header.extend_from_slice(piece)?;
        self.profile = profile_so_far(&self.header, self.shape.form);
        match header_in(self.alloc, &self.header, &self.shape) {
            Ok(header) => self.take_body(header, tables),
            Err(e) if is_short(e.kind) => Ok(()),
            Err(e) => Err(e),
        }
    }

    /// Takes a piece of a file of which no item has failed.
    fn take(&mut self, piece: &[u8], tables: &mut Tables) -> Result<(), TabErr>
        requires room { reached self.old.body (length self.old.header.items) + length piece.now < 2 ^ 64 }
        requires empty { tables.old ≡ [] }
        ensures shape { self.new.shape ≡ self.old.shape }
        ensures failed { self.new.failed ≡ self.old.failed }
        ensures taken { IfOk result (λ _. reached self.new.body (length self.new.header.items) ≤ reached self.old.body (length self.old.header.items) + length piece.now) }
        ensures feeds { Feeds self.old self.new piece.now tables.new result }
    {
        match &mut self.body {
            Some(body) => body.take(piece, tables),
            None => self.take_header(piece, tables),
        }
    }

    /// Takes the next piece of the file, and gives the tables that become whole with it, in the order of the file.
    ///
    /// # Errors
    ///
    /// The first item in the order of the file that fails, as soon as all its bytes have come; or `NoMemory` at offset 0.
    /// Each later call answers the same, and takes nothing.
    pub fn feed(&mut self, piece: &[u8]) -> Result<Tables, TabErr>
        requires { taken self.old + length piece.now < 2 ^ 64 }
        // After the feed it stands for all that was fed.
        ensures stands { (shape : AnyShape) (fed : List ℕ) → StandsFor self.old shape fed → MatchResult result (λ _. StandsFor self.new shape (fed ++ piece.now)) (λ e. e.kind ≢ NoMemory → StandsFor self.new shape (fed ++ piece.now)) }
        // These are the tables that became whole.
        ensures tables { (shape : AnyShape) (fed : List ℕ) → StandsFor self.old shape fed → IfOk result (λ tables. whole_tables fed shape ++ tables ≡ whole_tables (fed ++ piece.now) shape) }
        // It answers tables exactly where no item whose bytes have all come fails.
        ensures ok { (shape : AnyShape) (fed : List ℕ) → StandsFor self.old shape fed → IfOk result (λ _. NoneFailsYet (fed ++ piece.now) shape) }
        ensures err { (shape : AnyShape) (fed : List ℕ) → StandsFor self.old shape fed → IfErr result (λ e. e.kind ≢ NoMemory → (e.kind ≢ Short) × TabFails (fed ++ piece.now) shape e.kind e.at) }
        // A failure is answered again.
        ensures again { (shape : AnyShape) (fed : List ℕ) (e : AnyErr) → StandsFor self.old shape fed → TabFails fed shape e.kind e.at → e.kind ≢ Short → MatchResult result (λ _. ⊥) (λ d. d ≡ e) }
        // So is want of memory.
        ensures memory { IfErr result (λ e. e.kind ≡ NoMemory → IsOut self.new) }
        ensures out { IsOut self.old → MatchResult result (λ _. ⊥) (λ e. e.kind ≡ NoMemory) }
        ensures taken { taken self.new ≤ taken self.old + length piece.now }
    {
        if let Some(e) = self.failed {
            return Err(e);
        }
        let mut tables = Tables::new(self.alloc);
        match self.take(piece, &mut tables) {
            Ok(()) => Ok(tables),
            Err(e) => {
                self.failed = Some(e);
                Err(e)
            }
        }
    }

    /// Tells whether what was fed is a whole file.
    ///
    /// # Errors
    ///
    /// The first item in the order of the file that fails, or isn't whole. `NoMemory` comes only where a feed answered it.
    pub fn end(self) -> Result<(), TabErr>
        requires { taken self < 2 ^ 64 }
        // The tables that came whole are those of the file.
        ensures reads { (shape : AnyShape) (fed : List ℕ) → StandsFor self shape fed → IfOk result (λ _. TabReads fed shape (witness_of fed shape)) }
        ensures fails { (shape : AnyShape) (fed : List ℕ) → StandsFor self shape fed → IfErr result (λ e. TabFails fed shape e.kind e.at) }
        ensures out { IsOut self → MatchResult result (λ _. ⊥) (λ e. e.kind ≡ NoMemory) }
    {
        if let Some(e) = self.failed {
            return Err(e);
        }
        match &self.body {
            None => Err(TabErr {
                kind: TabKind::Short,
                at: self.header.len() as u64,
            }),
            Some(body) if body.is_going() => Err(TabErr {
                kind: TabKind::Short,
                at: body.end(),
            }),
            Some(_) => Ok(()),
        }
    }
}
