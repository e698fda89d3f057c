//! A verdict that is given the tables one at a time.
ghost use Rattle.std.specs.Prelude.{◌≡◌, ◌≢◌, ◌<◌, ◌≤◌, ◌++◌, ◌∷◌, [], ℕ, List, IfOk, OnOk, All, length};
ghost use Rattle.gold.specs.declared.instances.Table.{Table as TableOf};
ghost use Rattle.pil_ast.specs.Columns.{Columns as Values, Fits};
ghost use Rattle.pil_ast.specs.Sound.{IsSound};
ghost use Rattle.pil_ast.specs.Tree.{namespaces};
ghost use Rattle.rv_model.specs.Image.{Img};
ghost use Rattle.fixed_cols.specs.declared.sizes.Sizes.{Sizes as SizesOf};
ghost use Rattle.instance_pass.specs.Passes.{IsSameInstance};
ghost use Rattle.pil_checker.specs.Standing.{IsBuilt, StandsFor, added};
ghost use Rattle.zk_layout.specs.Air.{air_number};
ghost use Rattle.zk_layout.specs.declared.air.Air.TheVariants.{Out};
ghost use Rattle.zk_layout.specs.Namespaces.{namespace_number, namespace_of};
ghost use Rattle.verdict.specs.Judged.{IsJudged};
ghost use Rattle.verdict.specs.Told.{told_by};
ghost use Rattle.verdict.specs.Standing.{AreAll, AreAllowed, ComesNext, IsNext, IsWhole, StandsForTables, air_at, witness_with};

use crate::Judgement;
use crate::constants::{CONSTANT_SPACES, Place, constant_columns, stored_constants};
use crate::told::told_by;
use fixed_cols::{FixedValues, Sizes, constants};
use gold::{Profile, Table};
use machine_columns::{columns_laws, publics_laws};
use machine_text::{machine, machine_lines};
use pil_ast::{Columns, Pil};
use pil_checker::Checker;
use pil_program::InstanceColumns;
use rv_model::{Image, OUTPUT_LEN, Public};
use std::alloc::{AllocError, Global};
use whole_columns::{Frame, whole_laws};
use zk_layout::{Air, Namespace};

/// What is known of the tables that were added. None of them is kept.
#[derive(Drop)]
pub struct VerdictRun {
    profile: Profile,
    pil: Pil,
    fixed: FixedValues,
    checker: Checker,
    /// What the table of Out tells, once it was added.
    public: Public,
}

/// Adds all instances of a namespace of which none was added.
fn add_instances<C: InstanceColumns>(
    alloc: Global,
    pil: &Pil,
    columns: &C,
    space: u32,
    checker: &mut Checker,
) -> Result<(), AllocError>
    requires sound { IsSound (namespaces pil.now) }
    requires fits { Fits (namespaces pil.now) (C.values columns.now) }
    requires space { space < (C.values columns.now).spaces }
    requires built { IsBuilt (namespaces pil.now) checker.old }
    requires none { added checker.old space ≡ 0 }
    ensures built { OnOk result (IsBuilt (namespaces pil.now) checker.new) }
    ensures here { OnOk result (added checker.new space ≡ (C.values columns.now).instances space) }
    ensures others { OnOk result ((s : ℕ) → s ≢ space → added checker.new s ≡ added checker.old s) }
    ensures stands { OnOk result ((c : Values) → StandsFor (namespaces pil.now) c checker.old → ((i : ℕ) → i < (C.values columns.now).instances space → IsSameInstance (C.values columns.now) c space i) → StandsFor (namespaces pil.now) c checker.new) }
{
    for instance in 0..columns.instances(space) {
        checker.add(alloc, pil, columns, space, instance)?;
    }
    Ok(())
}

/// A checker to which all instances of the first namespaces were added.
fn add_spaces<C: InstanceColumns>(
    alloc: Global,
    pil: &Pil,
    columns: &C,
    checker: &mut Checker,
) -> Result<(), AllocError>
    requires sound { IsSound (namespaces pil.now) }
    requires fits { Fits (namespaces pil.now) (C.values columns.now) }
    requires spaces { (C.values columns.now).spaces ≡ 13 }
    requires built { IsBuilt (namespaces pil.now) checker.old }
    requires none { (s : ℕ) → added checker.old s ≡ 0 }
    ensures built { OnOk result (IsBuilt (namespaces pil.now) checker.new) }
    ensures first { OnOk result ((s : ℕ) → s < 6 → added checker.new s ≡ (C.values columns.now).instances s) }
    ensures others { OnOk result ((s : ℕ) → 6 ≤ s → added checker.new s ≡ 0) }
    ensures stands { OnOk result ((c : Values) → StandsFor (namespaces pil.now) c checker.old → ((s i : ℕ) → s < 6 → i < (C.values columns.now).instances s → IsSameInstance (C.values columns.now) c s i) → StandsFor (namespaces pil.now) c checker.new) }
{
    for space in 0..CONSTANT_SPACES {
        add_instances(alloc, pil, columns, space, checker)?;
    }
    Ok(())
}

/// The number of the namespace of the air with this number.
fn space_of(air: u32) -> u32
    requires { air < 7 }
    ensures is { result ≡ namespace_number (namespace_of (air_at air)) }
    ensures below { result < 13 }
{
    Namespace::of_air(Air::ALL[air as usize]).number()
}

impl VerdictRun {
    /// A run to which no table was added, for tables of these sizes. The constants are written out, and all but the
    /// tuples that `in`s look up is dropped.
    ///
    /// # Errors
    ///
    /// Memory ran out.
    pub fn new(alloc: Global, image: &Image, sizes: &Sizes) -> Result<VerdictRun, AllocError>
        requires { AreAllowed sizes.now }
        ensures { IfOk result (StandsForTables image.now sizes.now []) }
    {
        columns_laws();
        whole_laws();
        machine_lines();
        let pil = machine(alloc, sizes.profile)?;
        let fixed = constants(alloc, image, sizes)?;
        let stored = stored_constants(alloc, &pil, &fixed, sizes.profile)?;
        let mut checker = Checker::new(alloc, &pil, &stored)?;
        add_spaces(alloc, &pil, &stored, &mut checker)?;
        Ok(VerdictRun {
            profile: sizes.profile,
            pil,
            fixed,
            checker,
            public: Public {
                exit: 0,
                output: [0; OUTPUT_LEN],
            },
        })
    }

    /// Keeps what a table of Out tells.
    fn publish(&mut self, table: &Table)
        requires columns { table.now.air ≡ air_number Out → length table.now.columns ≡ 2 }
        requires rows { table.now.air ≡ air_number Out → All (λ c. length c ≡ 64) table.now.columns }
        ensures profile { self.new.profile ≡ self.old.profile }
        ensures pil { self.new.pil ≡ self.old.pil }
        ensures fixed { self.new.fixed ≡ self.old.fixed }
        ensures checker { self.new.checker ≡ self.old.checker }
        ensures out { table.now.air ≡ air_number Out → self.new.public ≡ told_by table.now }
        ensures others { table.now.air ≢ air_number Out → self.new.public ≡ self.old.public }
    {
        if table.air == Air::Out.number() {
            self.public = told_by(table);
        }
    }

    /// Adds the table that comes next in the order of the file. It is read once and not kept. After an `Err` the run
    /// is of no more use.
    ///
    /// # Errors
    ///
    /// Memory ran out.
    pub fn add(&mut self, alloc: Global, image: &Image, table: &Table) -> Result<(), AllocError>
        requires { IsNext image.now self.old table.now }
        ensures { OnOk result ((sizes : SizesOf) (tables : List TableOf) → StandsForTables image.now sizes tables self.old → ComesNext sizes tables table.now → StandsForTables image.now sizes (tables ++ table.now ∷ []) self.new) }
    {
        columns_laws();
        whole_laws();
        let space = space_of(table.air);
        let place = Place {
            space,
            instance: table.instance,
            rows: self.pil.rows(space),
        };
        let first = constant_columns(alloc, &self.fixed, place)?;
        let others = table.columns.as_slice();
        let frame = Frame::new(self.profile, space, table.instance, first, others);
        self.checker
            .add(alloc, &self.pil, &frame, space, table.instance)?;
        self.publish(table);
        Ok(())
    }

    /// The judgement on the tables, where all of them were added.
    ///
    /// # Errors
    ///
    /// Memory ran out.
    pub fn finish(self, alloc: Global) -> Result<Judgement, AllocError>
        requires { IsWhole self }
        ensures { IfOk result (λ j. (image : Img) (sizes : SizesOf) (tables : List TableOf) → StandsForTables image sizes tables self → AreAll sizes tables → IsJudged image (witness_with sizes tables) j) }
    {
        columns_laws();
        publics_laws();
        let VerdictRun {
            pil,
            checker,
            public,
            ..
        } = self;
        let found = checker.finish(alloc, &pil)?;
        match found {
            Some(broken) => Ok(Judgement::Broken(broken)),
            None => Ok(Judgement::Accepted(public)),
        }
    }
}
