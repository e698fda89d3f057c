//! The laws, each on a function that computes nothing.
ghost use Rattle.std.specs.Prelude.{◌≡◌, ◌+◌, ◌<◌, ◌≤◌, ◌^◌, ℕ};
ghost use Rattle.gold.specs.declared.instances.Witness.{Witness as Tables};
ghost use Rattle.rv_model.specs.Image.{Img, IsLoadable};
ghost use Rattle.pil_ast.specs.Columns.{Fits};
ghost use Rattle.pil_ast.specs.Value.{public_value};
ghost use Rattle.zk_layout.specs.Air.{air_number, columns_per, rows_in};
ghost use Rattle.zk_layout.specs.Namespaces.{namespace_at, namespace_number, namespace_of};
ghost use Rattle.zk_layout.specs.declared.air.Air.{Air};
ghost use Rattle.fixed_cols.specs.Constants.{instances_of as instances_for_sizes};
ghost use Rattle.fixed_cols.specs.declared.sizes.Sizes.{Sizes};
ghost use Rattle.wit_columns.specs.Values.{instances_of, value_at};
ghost use Rattle.machine_text.specs.Machine.{machine};
ghost use Rattle.machine_text.specs.Out;
ghost use Rattle.main_run.specs.Headline.{PublicsAreOuts, told};
ghost use Rattle.main_run.specs.Whole.{IsMachine};
ghost use Rattle.machine_columns.specs.Values.{constants_per, sizes_of, values_of};
ghost use Rattle.machine_columns.specs.Accepted.{AreAccepted, AreWellFormed, public_of, published};

use air_mem::{memory_constants, memory_text};
use image_rows::{initial_law, rom_law};
use main_run::machine_laws;
use rv_model::words_law;
use rv_word::decoding_law;
use zk_layout::machine::airs_by_number;
use zk_layout::namespaces_by_number;

/// The columns of an image and of well-formed tables.
pub fn columns_laws()
    // They have the text's numbers of columns and rows, and not too many instances.
    ensures fits { (image : Img) (tables : Tables) → AreWellFormed tables → Fits (machine tables.profile) (values_of image tables) }
    // They have the machine's constants, as many instances as they may have, and values of the field.
    ensures machine { (image : Img) (tables : Tables) → IsLoadable image → AreWellFormed tables → IsMachine image (sizes_of tables) (values_of image tables) }
    // Of the namespaces that have constants alone there are few instances.
    ensures few { (image : Img) (sizes : Sizes) (s : ℕ) → s < 6 → instances_for_sizes image sizes (namespace_at s) ≤ 2 ^ 20 }
    // Behind the constants of an air's namespace stand the columns of its tables.
    ensures tables { (image : Img) (tables : Tables) (air : Air) (i k r : ℕ) → i < instances_of tables.tables (air_number air) → k < columns_per air → r < rows_in tables.profile air → (values_of image tables).at (namespace_number (namespace_of air)) i (constants_per (namespace_of air) + k) r ≡ value_at tables.tables (air_number air) i k r }
{
    airs_by_number();
    namespaces_by_number();
    words_law();
    decoding_law();
    rom_law();
    initial_law();
}

/// What well-formed tables publish, and accepted ones.
pub fn publics_laws()
    // There is one instance of Out, and the publics are its values.
    ensures one { (image : Img) (tables : Tables) → AreWellFormed tables → (values_of image tables).instances Out.here ≡ 1 }
    ensures outs { (image : Img) (tables : Tables) → AreWellFormed tables → PublicsAreOuts (machine tables.profile) (values_of image tables) }
    // The publics have 32 bits.
    ensures below { (image : Img) (tables : Tables) → IsLoadable image → AreWellFormed tables → AreAccepted image tables → (k : ℕ) → k < 66 → published image tables k < 2 ^ 32 }
    // So the public output is the one that they tell.
    ensures same { (image : Img) (tables : Tables) → IsLoadable image → AreWellFormed tables → AreAccepted image tables → public_of image tables ≡ told (public_value (machine tables.profile) (values_of image tables)) }
{
    columns_laws();
    machine_laws();
    memory_constants();
    memory_text();
}
