//! What holds of all files and tables.
ghost use Rattle.std.specs.Prelude.{◌≡◌, ◌++◌, ◌<◌, ℕ, List, [], ◌⊎◌, All, MatchResult, flat_map, length, slice_index, take};
ghost use Rattle.gold.specs.Shapes.{AreCounts, Fill, HaveShape, is_machine};
ghost use Rattle.zk_layout.specs.Air.{machine_shape_of};
ghost use Rattle.gold.specs.declared.instances.Witness.{Witness};
ghost use Rattle.gold.specs.declared.shapes.Form.TheVariants.{Two};
ghost use Rattle.gold.specs.declared.shapes.Shape.{Shape};
ghost use Rattle.tab_file.specs.declared.fault.TabKind.{TabKind};
ghost use Rattle.tab_file.specs.declared.fault.TabKind.TheVariants.{NoMemory};
ghost use Rattle.tab_file.specs.Format.{text};
ghost use Rattle.tab_file.specs.Reading.{TabReads, TabFails, promised_airs, promised_counts};
ghost use Rattle.tab_file.specs.Pieces.{head_text, table_text, IsSmall};
ghost use Rattle.tab_file.specs.Front.{CountsHaveCome, IsAllOf, NoneFailsYet, ProfileHasCome, SameHeader, promised_places, whole_tables};
ghost use Rattle.tab_file.specs.Stands.{AreBytes};

use crate::{TabErr, read, write};
use gold::{Form, Witness};
use std::alloc::Global;
use zk_layout::machine_shape;

/// Under a shape, bytes either read as tables, or an item of them fails first, and not both. No item
/// fails for want of memory.
pub fn reads_or_fails()
    ensures one { (bytes : List ℕ) (shape : Shape) → ((i : ℕ) → slice_index bytes i < 256)
        → ((witness : Witness) × TabReads bytes shape witness) ⊎ ((kind : TabKind) × (at : ℕ) × TabFails bytes shape kind at) }
    ensures not_both { (bytes : List ℕ) (shape : Shape) (witness : Witness) (kind : TabKind) (at : ℕ)
        → TabReads bytes shape witness → TabFails bytes shape kind at → ⊥ }
    ensures no_memory { (bytes : List ℕ) (shape : Shape) (at : ℕ) → TabFails bytes shape NoMemory at → ⊥ }
{}

/// Under a shape, bytes read as one witness, and a witness is read from one text.
pub fn one_text()
    ensures witness { (bytes : List ℕ) (shape : Shape) (a b : Witness) → TabReads bytes shape a → TabReads bytes shape b → a ≡ b }
    ensures bytes { (a b : List ℕ) (shape : Shape) (witness : Witness) → TabReads a shape witness → TabReads b shape witness → a ≡ b }
{}

/// The text of a machine's tables is what stands before the instances, and then each instance.
pub fn pieces_are_the_text()
    ensures text { (witness : Witness) → HaveShape (machine_shape_of Two) witness → text (machine_shape_of Two) witness ≡ head_text witness ++ flat_map table_text witness.tables }
    ensures small { (witness : Witness) → HaveShape (machine_shape_of Two) witness → All IsSmall witness.tables }
{}

/// What a file tells of which a front has come.
pub fn front_laws()
    // The numbers of instances that have come and passed are allowed ones.
    ensures counts { (bytes : List ℕ) (shape : Shape) → AreBytes bytes → CountsHaveCome bytes shape → AreCounts (is_machine shape.form) 0 (promised_airs bytes shape) (promised_counts bytes shape) }
    // The profile has come before them.
    ensures profile { (bytes : List ℕ) (shape : Shape) → CountsHaveCome bytes shape → ProfileHasCome bytes shape.form }
    // The tables that are whole stand at the first of the places that these numbers promise.
    ensures places { (bytes : List ℕ) (shape : Shape) → AreBytes bytes → CountsHaveCome bytes shape → NoneFailsYet bytes shape
        → Fill (take (length (whole_tables bytes shape)) (promised_places bytes shape)) (whole_tables bytes shape) }
    // Before these numbers have come no table is whole.
    ensures none { (bytes : List ℕ) (shape : Shape) → NoneFailsYet bytes shape → (CountsHaveCome bytes shape → ⊥) → whole_tables bytes shape ≡ [] }
    // What has come of a header stays, whatever follows.
    ensures later { (bytes more : List ℕ) (shape : Shape) → CountsHaveCome bytes shape → SameHeader bytes (bytes ++ more) shape }
    // Of a file that reads as tables, they are all whole.
    ensures all { (bytes : List ℕ) (shape : Shape) (witness : Witness) → TabReads bytes shape witness → IsAllOf bytes shape witness }
{}

/// What is written of the machine's tables reads as the tables, unless memory runs out.
pub fn written_reads(alloc: Global, witness: &Witness) -> Result<Witness, TabErr>
    requires { HaveShape (machine_shape_of Two) witness.now }
    ensures { MatchResult result (λ w. w ≡ witness.now) (λ e. e.kind ≡ NoMemory) }
{
    let bytes = write(alloc, witness)?;
    let shape = machine_shape(alloc, Form::Two)?;
    let again = read(alloc, &bytes, &shape)?;
    Ok(again)
}
