//! What a text that can be read says of its numbers.
ghost use Rattle.std.specs.Prelude.{ℕ, ◌<◌, ◌≤◌, ◌^◌, List, length};
ghost use Rattle.pil_ast.specs.Term.{Line, Namespace, space_at, columns_of, width};
ghost use Rattle.pil_ast.specs.Sound.{IsItem, IsSound};

/// A declaration has at most 4,096 columns, and a namespace fewer than 2^32 (docs/PIL.md, "Limits").
pub fn limit_laws()
    ensures declared { (ns : List Namespace) (s : ℕ) (l : Line) → IsItem ns s l → columns_of l ≤ 4096 }
    ensures columns { (ns : List Namespace) (s : ℕ) → IsSound ns → s < length ns → width (space_at ns s).items < 2 ^ 32 }
{}
