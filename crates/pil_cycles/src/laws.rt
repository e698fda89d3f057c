//! What is true of dependence in every namespace.
ghost use Rattle.std.specs.Prelude.{ℕ, List, ◌⊎◌};
ghost use Rattle.pil_ast.specs.Term.{Line};
ghost use Rattle.pil_ast.specs.Sound.{IsAcyclic};
ghost use Rattle.pil_ast.specs.Order.{NamesInside};
ghost use Rattle.pil_cycles.specs.Cycles.{IsOnCycle, IsLeastOnCycle};

/// Each item is on a cycle or on none, and there is a least one that is or all are on none.
pub fn cycles_are_decided()
    ensures each { (items : List Line) (k : ℕ) → IsOnCycle items k ⊎ ¬ IsOnCycle items k }
    ensures least { (items : List Line) → ((k : ℕ) × IsLeastOnCycle items k) ⊎ ((k : ℕ) → ¬ IsOnCycle items k) }
{}

/// Where each item ranks above those that it names, none depends on itself.
pub fn ranked_have_no_cycle()
    ensures { (items : List Line) → IsAcyclic items → (k : ℕ) → ¬ IsOnCycle items k }
{}

/// Where none depends on itself, each can be ranked above those that it names.
pub fn without_cycle_are_ranked()
    ensures { (items : List Line) → NamesInside items → ((k : ℕ) → ¬ IsOnCycle items k) → IsAcyclic items }
{}
