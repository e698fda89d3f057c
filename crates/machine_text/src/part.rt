//! Parts of the constraints.
ghost use Rattle.std.specs.Prelude.{◌≡◌, ◌<◌, Some, map, length, slice_get};
ghost use Rattle.std.specs.List.{remove};
ghost use Rattle.pil_ast.specs.Tree.{namespace};

use pil_ast::Space;
use sqlite_items::Items;

/// Takes a namespace out of a list. Those behind it move up by one.
pub fn take_out(spaces: &mut Items<Space>, at: usize) -> Space
    requires { at < length (map namespace spaces.old) }
    ensures taken { slice_get (map namespace spaces.old) at ≡ Some (namespace result) }
    ensures rest { map namespace spaces.new ≡ remove (map namespace spaces.old) at }
{
    spaces.remove(at)
}
