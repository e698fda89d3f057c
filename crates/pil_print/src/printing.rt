//! A text as it is printed.
ghost use Rattle.std.specs.Prelude.{◌≡◌, ◌++◌, IfOk, OnOk, map, All};
ghost use Rattle.pil_ast.specs.Tree.{line, namespace, namespaces};
ghost use Rattle.pil_ast.specs.Sound.{IsSound};
ghost use Rattle.pil_print.specs.Statements.{statements_of};
ghost use Rattle.pil_print.specs.Printed.{text_of, printed};
ghost use Rattle.pil_print.specs.Tables.{IsNames, text_names};
ghost use Rattle.pil_print.specs.Levels.{IsPrintableItem};

use crate::expressions::write_number;
use crate::items::write_items;
use crate::tables::{Names, names_of};
use pil_ast::{Pil, Space};
use std::alloc::{AllocError, Global};

/// Writes `namespace name(rows);` and the items.
fn write_space(names: &Names, space: &Space, text: &mut Vec<u8>) -> Result<(), AllocError>
    requires names { IsNames names.now }
    requires printable { All (λ i. IsPrintableItem (text_names names.now) (line i)) space.now.items }
    ensures { OnOk result (text.new.items ≡ text.old.items ++ text_of (statements_of (text_names names.now) (namespace space.now))) }
{
    text.extend_from_slice(b"namespace ")?;
    text.extend_from_slice(space.name.as_slice())?;
    text.extend_from_slice(b"(")?;
    write_number(u64::from(space.rows), text)?;
    text.extend_from_slice(b");\n")?;
    write_items(names, space.items.as_slice(), text)
}

/// The printed text, by the layout in specs/Printed.antt: each declaration and each line on a line of its
/// own, each polynomial with its namespace, and no parentheses but those that are needed. It takes
/// time in proportion to the length of the printed text, but for the search of columns.
pub fn print(alloc: Global, pil: &Pil) -> Result<Vec<u8>, AllocError>
    requires { IsSound (namespaces pil.now) }
    ensures { IfOk result (λ text. text.items ≡ printed (namespaces pil.now)) }
{
    let names = names_of(alloc, pil)?;
    let mut text = Vec::new(alloc);
    for space in names.spaces {
        write_space(&names, space, &mut text)?;
    }
    Ok(text)
}
