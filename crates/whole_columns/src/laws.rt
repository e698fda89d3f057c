//! Whole columns as values of a text.
ghost use Rattle.std.specs.Prelude.{◌<◌, ◌+◌, ℕ, [], length, slice_index_or};
ghost use Rattle.pil_ast.specs.Term.{space_at};
ghost use Rattle.pil_ast.specs.Columns.{Fits};
ghost use Rattle.machine_text.specs.Machine.{machine};
ghost use Rattle.whole_columns.specs.Whole.{AreFew, Framed, Held, values_of_frame, values_of_held};

/// The columns have their text's numbers of columns and rows, and not too many instances. The call
/// computes nothing.
pub fn whole_laws()
    ensures frame { (f : Framed) → AreFew (f.instance + 1) (space_at (machine f.profile) f.space).rows → Fits (machine f.profile) (values_of_frame f) }
    ensures stored { (h : Held) → ((s : ℕ) → s < 13 → AreFew (length (slice_index_or h.spaces s [])) (space_at (machine h.profile) s).rows) → Fits (machine h.profile) (values_of_held h) }
{}
