//! The value of an expression, where those of the intermediates are known.
ghost use Rattle.std.specs.Prelude.{◌≡◌, ◌<◌, length, All};
ghost use Rattle.std.specs.Option.{option_copied, ForSome};
ghost use Rattle.pil_ast.specs.Tree.{term};
ghost use Rattle.pil_ast.specs.Reading.{IsReadable, IsReader, IsPlaceIn, read_value};
ghost use Rattle.pil_ast.specs.Value.{value_of_place};

use crate::columns::Columns;
use crate::tree::{Expr, Place};
use gold::Fe;
use sqlite_items::at;

/// A row of an instance of a namespace, and the row that a mark means there.
#[derive(Clone, Copy)]
pub struct Position {
    pub space: u32,
    pub instance: u32,
    pub row: u32,
    pub after: u32,
}

/// What an expression reads: its position, the values of the intermediates there and at the row that
/// a mark means, by item, and what the publics name.
#[derive(Drop)]
pub struct Reader<'a> {
    pub position: Position,
    pub here: &'a [Fe],
    pub next: &'a [Fe],
    pub publics: &'a [Place],
}

/// The value of a public, 0 where its namespace has no instance.
fn public_value<C: Columns>(columns: &C, place: Option<&Place>) -> Fe
    requires { ForSome place (λ a. IsPlaceIn (C.values columns.now) a.now) }
    ensures { result ≡ value_of_place (C.values columns.now) (option_copied place.entry) }
{
    match place {
        Some(place) => {
            if columns.instances(place.space) == 0 {
                Fe::ZERO
            } else {
                columns.at(place.space, 0, place.column, place.row)
            }
        }
        None => Fe::ZERO,
    }
}

/// The value of an expression.
pub fn read<C: Columns>(columns: &C, reader: &Reader, expr: &Expr) -> Fe
    requires reader { IsReader (C.values columns.now) reader.now }
    requires readable { IsReadable (C.values columns.now) reader.now.position.space (length reader.now.here.now) (length reader.now.publics.now) (term expr.now) }
    ensures { result ≡ read_value (C.values columns.now) reader.now.position reader.now.here.now reader.now.next.now reader.now.publics.now (term expr.now) }
{
    let position = &reader.position;
    match expr {
        Expr::Number(n) => *n,
        Expr::Column {
            space,
            column,
            next,
        } => {
            let row = if *next { position.after } else { position.row };
            columns.at(*space, position.instance, *column, row)
        }
        Expr::Inter {
            space: _,
            item,
            next,
        } => {
            let values = if *next { reader.next } else { reader.here };
            values[*item as usize]
        }
        Expr::Public(number) => public_value(columns, at(reader.publics, *number as usize)),
        Expr::Neg(a) => read(columns, reader, a.get()).neg(),
        Expr::Add(a, b) => {
            let a = read(columns, reader, a.get());
            a.add(read(columns, reader, b.get()))
        }
        Expr::Sub(a, b) => {
            let a = read(columns, reader, a.get());
            a.sub(read(columns, reader, b.get()))
        }
        Expr::Mul(a, b) => {
            let a = read(columns, reader, a.get());
            a.mul(read(columns, reader, b.get()))
        }
    }
}
