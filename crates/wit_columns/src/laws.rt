//! What holds of all tables.
ghost use Rattle.std.specs.Prelude.{◌≡◌, List, map};
ghost use Rattle.gold.specs.declared.instances.Witness.{Witness};
ghost use Rattle.gold.specs.declared.shapes.Form.TheVariants.{Plain};
ghost use Rattle.gold.specs.declared.shapes.Shape.{Shape};
ghost use Rattle.gold.specs.Shapes.{HaveShape};
ghost use Rattle.pil_ast.specs.Term.{Namespace};
ghost use Rattle.pil_ast.specs.Columns.{Fits};
ghost use Rattle.pil_ast.specs.Shape.{air_shape};
ghost use Rattle.pil_ast.specs.Sound.{IsSound};
ghost use Rattle.wit_columns.specs.Values.{values_of};

/// Tables that have the shape of a text have its numbers of columns and rows, and not too many
/// instances.
pub fn fits()
    ensures { (ns : List Namespace) (shape : Shape) (witness : Witness) → IsSound ns → shape.airs ≡ map air_shape ns
        → shape.form ≡ Plain → HaveShape shape witness → Fits ns (values_of shape witness) }
{}
