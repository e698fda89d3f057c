//! The laws, each on a function that computes nothing.
ghost use Rattle.std.specs.Prelude.{◌≡◌, ◌++◌, ◌∷◌, List, length, take};
ghost use Rattle.gold.specs.Shapes.{Fill};
ghost use Rattle.gold.specs.declared.instances.Table.{Table};
ghost use Rattle.gold.specs.declared.instances.Witness.{Witness as Tables};
ghost use Rattle.rv_model.specs.Image.{Img, IsLoadable};
ghost use Rattle.fixed_cols.specs.declared.sizes.Sizes.{Sizes};
ghost use Rattle.machine_columns.specs.Accepted.{AreAccepted, AreWellFormed, public_of};
ghost use Rattle.machine_columns.specs.Values.{sizes_of};
ghost use Rattle.verdict.specs.declared.judgement.Judgement.{Judgement as JudgementOf};
ghost use Rattle.verdict.specs.Judged.{IsJudged};
ghost use Rattle.verdict.specs.Standing.{AreAll, ComesNext, places_of};
ghost use Rattle.verdict.specs.Steps.{AreSteps, NothingWraps, RunsBy};

use bus_check::one_verdict;
use machine_columns::{columns_laws, publics_laws};
use main_run::machine_laws;

/// What accepted tables say of the image's run.
pub fn soundness_laws()
    // It halts with as many steps as rows of Main are selected, at most 2^32, and its public output is that of the tables.
    ensures headline { (image : Img) (tables : Tables) → IsLoadable image → AreWellFormed tables → AreAccepted image tables → RunsBy image tables (public_of image tables) }
    // The selected rows of Main are the first ones, and they are its steps.
    ensures rows { (image : Img) (tables : Tables) → IsLoadable image → AreWellFormed tables → AreAccepted image tables → AreSteps image tables }
    // No identity wraps.
    ensures no_wrap { (image : Img) (tables : Tables) → IsLoadable image → AreWellFormed tables → AreAccepted image tables → NothingWraps image tables }
{
    columns_laws();
    publics_laws();
    machine_laws();
}

/// Of an image and tables there is one judgement and no other.
pub fn judgement_laws()
    ensures some { (image : Img) (tables : Tables) → (j : JudgementOf) × IsJudged image tables j }
    ensures one { (image : Img) (tables : Tables) (a b : JudgementOf) → IsJudged image tables a → IsJudged image tables b → a ≡ b }
{
    one_verdict();
}

/// Which table a run of the verdict wants next, and which tables are all.
pub fn file_laws()
    // Of tables that stand at the first of a file's places, each is the next one after those before it.
    ensures next { (sizes : Sizes) (before : List Table) (table : Table) (rest : List Table)
        → Fill (take (length (before ++ table ∷ rest)) (places_of sizes)) (before ++ table ∷ rest) → ComesNext sizes before table }
    // The tables of well-formed ones are all tables of a file of their sizes.
    ensures all { (tables : Tables) → AreWellFormed tables → AreAll (sizes_of tables) tables.tables }
{}
