//! What a host is: files are opened and read, created and written, and a report is made.
ghost use Rattle.std.specs.Prelude.{◌≡◌, ◌<◌, ◌≤◌, ℕ, length, take, IfOk, MatchResult, OnErr, IsErrOf};
ghost use Rattle.host_io.specs.Slots.{SameSlots, GainsAnswer, EndsAtZero};
ghost use Rattle.host_io.specs.World.{World, Opened, Created, after_asking, after_create, after_write, after_report};
ghost use Rattle.host_io.specs.Calls.{HasCause, Opens, Reads};

/// Why a call was refused: it failed, which the host counts, or memory ran out.
#[derive(Clone, Copy, Debug, PartialEq, Eq)]
pub enum HostErr {
    Failed,
    NoMemory,
}

/// A file that a host opened or created, by the number that the host gave it.
#[derive(Clone, Copy, Debug, PartialEq, Eq)]
pub struct Slot {
    pub number: u64,
}

/// The outside. Every host tells which slots it gave, which may be read and which written, and how
/// often it failed. A host that tells contents tells its whole world besides.
///
/// What a clause doesn't name stays as it was. A refused call changes the count of faults and the
/// list of names alone, and one that finds no memory doesn't change the names either.
pub trait Host {
    /// Whether it tells contents.
    ghost tells: { Self → Type 0 };

    ghost world: { Self → World };

    ghost given: { Self → ℕ → Type 0 };

    ghost may_read: { Self → ℕ → Type 0 };

    ghost may_write: { Self → ℕ → Type 0 };

    ghost faults: { Self → ℕ };

    /// A new slot for reading, with the contents of the file of this name left.
    fn open(&mut self, name: &str) -> Result<Slot, HostErr>
        ensures fresh { IfOk result (λ slot. ¬ given self.old slot.number) }
        ensures given { GainsAnswer (given self.old) (given self.new) result }
        ensures may_read { GainsAnswer (may_read self.old) (may_read self.new) result }
        ensures may_write { SameSlots (may_write self.old) (may_write self.new) }
        ensures cause { HasCause (faults self.old) (faults self.new) result }

        ensures told { tells self.old → tells self.new }
        ensures ok { tells self.old → IfOk result (λ slot. Opens (world self.old) (world self.new) name.now slot.number) }
        ensures failed { tells self.old → IsErrOf result HostErr.Failed → world self.new ≡ after_asking (world self.old) (Opened name.now) }
        ensures no_memory { tells self.old → IsErrOf result HostErr.NoMemory → world self.new ≡ world self.old };

    /// The next bytes of what is left, at the front of the buffer: how many came, 0 exactly where
    /// nothing is left. After a 0 the slot may no longer be read.
    fn read(&mut self, slot: Slot, into: &mut [u8]) -> Result<usize, HostErr>
        requires may { may_read self.old slot.number }
        requires room { 0 < length into.old }
        ensures within { IfOk result (λ count. count ≤ length into.old) }
        ensures given { SameSlots (given self.old) (given self.new) }
        ensures may_read { MatchResult result (λ count. EndsAtZero (may_read self.old) (may_read self.new) slot.number count)
            (λ e. SameSlots (may_read self.old) (may_read self.new)) }
        ensures may_write { SameSlots (may_write self.old) (may_write self.new) }
        ensures has_memory { IsErrOf result HostErr.NoMemory → ⊥ }
        ensures cause { HasCause (faults self.old) (faults self.new) result }

        ensures told { tells self.old → tells self.new }
        ensures ok { tells self.old → IfOk result (λ count. Reads (world self.old) (world self.new) slot.number count into.old into.new) }
        ensures refused { tells self.old → OnErr result (world self.new ≡ world self.old) }
        ensures buffer { tells self.old → OnErr result (into.new ≡ into.old) };

    /// A new slot for writing, with an empty file behind this name.
    fn create(&mut self, name: &str) -> Result<Slot, HostErr>
        ensures fresh { IfOk result (λ slot. ¬ given self.old slot.number) }
        ensures given { GainsAnswer (given self.old) (given self.new) result }
        ensures may_read { SameSlots (may_read self.old) (may_read self.new) }
        ensures may_write { GainsAnswer (may_write self.old) (may_write self.new) result }
        ensures cause { HasCause (faults self.old) (faults self.new) result }

        ensures told { tells self.old → tells self.new }
        ensures ok { tells self.old → IfOk result (λ slot. world self.new ≡ after_create (world self.old) name.now slot.number) }
        ensures failed { tells self.old → IsErrOf result HostErr.Failed → world self.new ≡ after_asking (world self.old) (Created name.now) }
        ensures no_memory { tells self.old → IsErrOf result HostErr.NoMemory → world self.new ≡ world self.old };

    /// Writes a front of the piece, at least one byte of it: how many it took.
    fn write(&mut self, slot: Slot, piece: &[u8]) -> Result<usize, HostErr>
        requires may { may_write self.old slot.number }
        requires some { 0 < length piece.now }
        ensures some { IfOk result (λ count. 0 < count) }
        ensures within { IfOk result (λ count. count ≤ length piece.now) }
        ensures given { SameSlots (given self.old) (given self.new) }
        ensures may_read { SameSlots (may_read self.old) (may_read self.new) }
        ensures may_write { SameSlots (may_write self.old) (may_write self.new) }
        ensures cause { HasCause (faults self.old) (faults self.new) result }

        ensures told { tells self.old → tells self.new }
        ensures ok { tells self.old → IfOk result (λ count. world self.new ≡ after_write (world self.old) slot.number (take count piece.now)) }
        ensures refused { tells self.old → OnErr result (world self.new ≡ world self.old) };

    /// Reports a front of the piece, at least one byte of it: how many it took.
    fn report(&mut self, piece: &[u8]) -> Result<usize, HostErr>
        requires { 0 < length piece.now }
        ensures some { IfOk result (λ count. 0 < count) }
        ensures within { IfOk result (λ count. count ≤ length piece.now) }
        ensures given { SameSlots (given self.old) (given self.new) }
        ensures may_read { SameSlots (may_read self.old) (may_read self.new) }
        ensures may_write { SameSlots (may_write self.old) (may_write self.new) }
        ensures cause { HasCause (faults self.old) (faults self.new) result }

        ensures told { tells self.old → tells self.new }
        ensures ok { tells self.old → IfOk result (λ count. world self.new ≡ after_report (world self.old) (take count piece.now)) }
        ensures refused { tells self.old → OnErr result (world self.new ≡ world self.old) };

    /// Only a slot that was given may be read or written.
    ghost readable_given: { (host : Self) (n : ℕ) → may_read host n → given host n };

    ghost writable_given: { (host : Self) (n : ℕ) → may_write host n → given host n };
}
