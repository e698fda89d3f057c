//! The text of a line, by its number.
ghost use Rattle.std.specs.Prelude.{◌≡◌, ◌<◌, ◌-◌, map, length, IfOk, slice_get, Some, take};
ghost use Rattle.pil_ast.specs.Tree.{namespace, namespaces};
ghost use Rattle.pil_ast.specs.Term.{space_at};
ghost use Rattle.pil_ast.specs.Sound.{IsSound};
ghost use Rattle.pil_lines.specs.Places.{IsInside};
ghost use Rattle.pil_print.specs.Printed.{printed};
ghost use Rattle.broken_line.specs.Texts.{IsFound, behind_spaces, statement_at};

use crate::cut::{behind_lines, first_line};
use pil_ast::{Pil, Space};
use pil_lines::{LinePlace, line_places};
use pil_print::print;
use std::alloc::{AllocError, Global};

/// A line for people.
#[derive(Drop)]
pub struct LineText {
    /// The name of the namespace where it stands.
    pub space: Vec<u8>,
    /// Its statement as it is printed, with each polynomial's namespace.
    pub text: Vec<u8>,
}

// What follows the statements of these namespaces.
fn behind_all<'a>(spaces: &[Space], text: &'a [u8]) -> &'a [u8]
    ensures { result.now ≡ behind_spaces (map namespace spaces.now) text.now }
{
    let mut rest = text;
    for space in spaces {
        rest = behind_lines(behind_lines(rest, 1), space.items.len());
    }
    rest
}

// The statement at a place, of the printed text.
fn statement<'a>(pil: &Pil, place: &LinePlace, text: &'a [u8]) -> &'a [u8]
    requires place { IsInside (namespaces pil.now) place.now }
    requires text { text.now ≡ printed (namespaces pil.now) }
    ensures { result.now ≡ statement_at (namespaces pil.now) place.now.space place.now.item }
{
    let before = &pil.spaces.as_slice()[..place.space];
    let rest = behind_lines(behind_all(before, text), 1);
    first_line(behind_lines(rest, place.item))
}

// The name of the namespace at a place.
fn space_name<'a>(pil: &'a Pil, place: &LinePlace) -> &'a [u8]
    requires { IsInside (namespaces pil.now) place.now }
    ensures { result.now ≡ (space_at (namespaces pil.now) place.now.space).name }
{
    pil.spaces.as_slice()[place.space].name.as_slice()
}

/// The text of the line with this number, from 1, or None where no line has it. It takes the time to
/// print the whole text.
pub fn line_text(alloc: Global, pil: &Pil, number: u32) -> Result<Option<LineText>, AllocError>
    requires { IsSound (namespaces pil.now) }
    ensures { IfOk result (IsFound (namespaces pil.now) number) }
{
    let places = line_places(alloc, pil)?;
    if number == 0 || number as usize > places.len() {
        return Ok(None);
    }
    let place = places[number as usize - 1];
    let printed = print(alloc, pil)?;
    Ok(Some(LineText {
        space: Vec::from_slice(alloc, space_name(pil, &place))?,
        text: Vec::from_slice(alloc, statement(pil, &place, &printed))?,
    }))
}
