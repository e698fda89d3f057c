//! The values that a constraint text speaks of.
ghost use Rattle.std.specs.Prelude.{◌≡◌, ◌<◌};
ghost use Rattle.pil_ast.specs.Columns.{Columns as Values};

use gold::Fe;

/// The numbers of instances of the namespaces, and the values of their columns.
pub trait Columns {
    ghost use Rattle.pil_ast.specs.Columns.{Columns as Values};

    /// What they are, as plain numbers.
    ghost values: { Self → Values };

    /// How many instances a namespace has.
    fn instances(&self, space: u32) -> u32
        requires { space < (values self.now).spaces }
        ensures { result ≡ (values self.now).instances space };

    /// The value of a column at a row of an instance.
    fn at(&self, space: u32, instance: u32, column: u32, row: u32) -> Fe
        requires space { space < (values self.now).spaces }
        requires instance { instance < (values self.now).instances space }
        requires column { column < (values self.now).width space }
        requires row { row < (values self.now).rows space }
        ensures { result ≡ (values self.now).at space instance column row };
}
