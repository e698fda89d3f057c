//! The values of the intermediates at a row, computed once for all expressions there.
ghost use Rattle.std.specs.Prelude.{◌≡◌, ◌<◌, ◌≤◌, ◌++◌, ℕ, cond, map, length, slice_set, flat_map, option_to_list, IfOk, OnOk, All};
ghost use Rattle.pil_ast.specs.Tree.{term, line, namespaces};
ghost use Rattle.pil_ast.specs.Term.{inter_at, space_at, publics as publics_of, places_of as places_of_line};
ghost use Rattle.pil_ast.specs.Columns.{Fits};
ghost use Rattle.pil_ast.specs.Value.{row_after, value_in, around};
ghost use Rattle.pil_ast.specs.Written.{IsValue};
ghost use Rattle.pil_ast.specs.Sound.{IsSound, IsTerm};
ghost use Rattle.pil_ast.specs.Reading.{IsPosition, IsPlaceIn, IsReader, IsReadable, read_value, moved_on};
ghost use Rattle.pil_ast.specs.Turns.{IsPlan};
ghost use Rattle.pil_ast.specs.Filled.{IsMadeOf, ArePlans, IsFilled, AreFilled};

use crate::columns::Columns;
use crate::items::expression;
use crate::reader::{Position, Reader, read};
use crate::tree::{Expr, Item, Pil, Place};
use crate::turns::{Turn, plan};
use gold::Fe;
use sqlite_items::Items;
use std::alloc::{AllocError, Global};

/// The values of a namespace's intermediates at a row of an instance, and at the next row of those
/// that have no mark when they are written out.
#[derive(Drop)]
pub struct RowValues {
    /// The namespace whose values these are.
    space: u32,
    /// What the publics name, in order of the text.
    publics: Items<Place>,
    /// Each namespace's intermediates in an order in which they can be evaluated.
    plans: Items<Items<Turn>>,
    /// The values at the row and at the next, by item.
    here: Items<Fe>,
    next: Items<Fe>,
}

/// The value of an item's expression, or 0 where it has none.
fn read_item<C: Columns>(columns: &C, reader: &Reader, items: &[Item], item: u32) -> Fe
    requires reader { IsReader (C.values columns.now) reader.now }
    requires readable { IsReadable (C.values columns.now) reader.now.position.space (length reader.now.here.now) (length reader.now.publics.now) (inter_at (map line items.now) item) }
    ensures { result ≡ read_value (C.values columns.now) reader.now.position reader.now.here.now reader.now.next.now reader.now.publics.now (inter_at (map line items.now) item) }
{
    match expression(items, item) {
        Some(value) => read(columns, reader, value),
        None => Fe::ZERO,
    }
}

/// Writes the value of an item at the row.
fn fill_here<C: Columns>(
    columns: &C,
    position: &Position,
    publics: &[Place],
    items: &[Item],
    item: u32,
    here: &mut Items<Fe>,
    next: &[Fe],
)
    requires position { IsPosition (C.values columns.now) position.now }
    requires publics { All (IsPlaceIn (C.values columns.now)) publics.now }
    requires as_long { length next.now ≡ length here.old }
    requires room { item < length here.old }
    requires readable { IsReadable (C.values columns.now) position.now.space (length here.old) (length publics.now) (inter_at (map line items.now) item) }
    ensures { here.new ≡ slice_set here.old item (read_value (C.values columns.now) position.now here.old next.now publics.now (inter_at (map line items.now) item)) }
{
    let reader = Reader {
        position: *position,
        here: here.as_slice(),
        next,
        publics,
    };
    let value = read_item(columns, &reader, items, item);
    here.set(item as usize, value);
}

/// Writes the value of an intermediate at the next row, where it has no mark when it is written out.
fn fill_next<C: Columns>(
    columns: &C,
    position: &Position,
    publics: &[Place],
    items: &[Item],
    turn: &Turn,
    next: &mut Items<Fe>,
)
    requires position { IsPosition (C.values columns.now) position.now }
    requires publics { All (IsPlaceIn (C.values columns.now)) publics.now }
    requires room { turn.now.item < length next.old }
    requires readable { IsReadable (C.values columns.now) position.now.space (length next.old) (length publics.now) (inter_at (map line items.now) turn.now.item) }
    ensures { next.new ≡ cond turn.now.ahead (slice_set next.old turn.now.item (read_value (C.values columns.now) (moved_on position.now) next.old next.old publics.now (inter_at (map line items.now) turn.now.item))) next.old }
{
    if !turn.ahead {
        return;
    }
    let reader = Reader {
        position: Position {
            space: position.space,
            instance: position.instance,
            row: position.after,
            after: position.after,
        },
        here: next.as_slice(),
        next: next.as_slice(),
        publics,
    };
    let value = read_item(columns, &reader, items, turn.item);
    next.set(turn.item as usize, value);
}

/// Writes the values of the intermediates of the position's namespace.
fn fill_turns<C: Columns>(
    pil: &Pil,
    columns: &C,
    position: &Position,
    publics: &[Place],
    turns: &[Turn],
    here: &mut Items<Fe>,
    next: &mut Items<Fe>,
)
    requires sound { IsSound (namespaces pil.now) }
    requires fits { Fits (namespaces pil.now) (C.values columns.now) }
    requires position { IsPosition (C.values columns.now) position.now }
    requires after { position.now.after ≡ row_after ((C.values columns.now).rows position.now.space) position.now.row }
    requires publics { publics.now ≡ publics_of (namespaces pil.now) }
    requires plan { IsPlan (space_at (namespaces pil.now) position.now.space).items turns.now }
    requires as_long { length next.old ≡ length here.old }
    requires room { length (space_at (namespaces pil.now) position.now.space).items ≤ length here.old }
    ensures filled { AreFilled (namespaces pil.now) (C.values columns.now) position.now.space position.now.instance position.now.row here.new next.new }
    ensures here { length here.new ≡ length here.old }
    ensures next { length next.new ≡ length next.old }
{
    let items = pil.spaces.as_slice()[position.space as usize]
        .items
        .as_slice();
    for turn in turns {
        fill_here(
            columns,
            position,
            publics,
            items,
            turn.item,
            here,
            next.as_slice(),
        );
        fill_next(columns, position, publics, items, turn, next);
    }
}

/// The row that a mark means.
#[tactic(auto, unfolding(crate::specs::Value::row_after))]
fn next_row(row: u32, rows: u32) -> u32
    requires { row < rows }
    ensures { result ≡ row_after rows row }
{
    (row + 1) % rows
}

impl RowValues {
    /// Values for the rows of this text; none is computed yet.
    pub fn new(alloc: Global, pil: &Pil) -> Result<RowValues, AllocError>
        requires { IsSound (namespaces pil.now) }
        ensures { IfOk result (λ v. IsMadeOf (namespaces pil.now) v) }
    {
        let publics = places_of(alloc, pil)?;
        let plans = plans_of(alloc, pil)?;
        let most = most_items(pil);
        let here = zeros(alloc, most)?;
        let next = zeros(alloc, most)?;
        Ok(RowValues {
            space: 0,
            publics,
            plans,
            here,
            next,
        })
    }

    /// Computes the values of a namespace's intermediates at a row of an instance, each once. It takes
    /// no memory.
    pub fn fill<C: Columns>(&mut self, pil: &Pil, columns: &C, space: u32, instance: u32, row: u32)
        requires sound { IsSound (namespaces pil.now) }
        requires fits { Fits (namespaces pil.now) (C.values columns.now) }
        requires made { IsMadeOf (namespaces pil.now) self.old }
        requires space { space < (C.values columns.now).spaces }
        requires instance { instance < (C.values columns.now).instances space }
        requires row { row < (C.values columns.now).rows space }
        ensures made { IsMadeOf (namespaces pil.now) self.new }
        ensures filled { IsFilled (namespaces pil.now) (C.values columns.now) space instance row self.new }
    {
        let position = Position {
            space,
            instance,
            row,
            after: next_row(row, pil.spaces.as_slice()[space as usize].rows),
        };
        let turns = self.plans.as_slice()[space as usize].as_slice();
        fill_turns(
            pil,
            columns,
            &position,
            self.publics.as_slice(),
            turns,
            &mut self.here,
            &mut self.next,
        );
        self.space = space;
    }
}

/// The value of an expression of the text at a row of an instance, where the values of the
/// intermediates there were computed last.
pub fn eval<C: Columns>(
    pil: &Pil,
    columns: &C,
    expr: &Expr,
    instance: u32,
    row: u32,
    inters: &RowValues,
) -> Fe
    requires sound { IsSound (namespaces pil.now) }
    requires fits { Fits (namespaces pil.now) (C.values columns.now) }
    requires made { IsMadeOf (namespaces pil.now) inters.now }
    requires space { inters.now.space < (C.values columns.now).spaces }
    requires instance { instance < (C.values columns.now).instances inters.now.space }
    requires row { row < (C.values columns.now).rows inters.now.space }
    requires filled { IsFilled (namespaces pil.now) (C.values columns.now) inters.now.space instance row inters.now }
    requires term { IsTerm (namespaces pil.now) inters.now.space (term expr.now) }
    ensures value { result ≡ value_in (namespaces pil.now) (C.values columns.now) inters.now.space instance row (term expr.now) }
    ensures written { IsValue (space_at (namespaces pil.now) inters.now.space).items (around (namespaces pil.now) (C.values columns.now) inters.now.space instance row) (term expr.now) result }
{
    let rows = pil.spaces.as_slice()[inters.space as usize].rows;
    let reader = Reader {
        position: Position {
            space: inters.space,
            instance,
            row,
            after: next_row(row, rows),
        },
        here: inters.here.as_slice(),
        next: inters.next.as_slice(),
        publics: inters.publics.as_slice(),
    };
    read(columns, &reader, expr)
}

/// What the publics name, in order of the text.
fn places_of(alloc: Global, pil: &Pil) -> Result<Items<Place>, AllocError>
    ensures { IfOk result (λ places. places ≡ publics_of (namespaces pil.now)) }
{
    let mut places = Items::new(alloc);
    for space in pil.spaces.as_slice() {
        push_places(space.items.as_slice(), &mut places)?;
    }
    Ok(places)
}

/// Puts what the items' publics name at the end.
fn push_places(items: &[Item], places: &mut Items<Place>) -> Result<(), AllocError>
    ensures { OnOk result (places.new ≡ places.old ++ flat_map places_of_line (map line items.now)) }
{
    for item in items {
        push_place(item, places)?;
    }
    Ok(())
}

/// Puts what the item names at the end, where it is a public.
fn push_place(item: &Item, places: &mut Items<Place>) -> Result<(), AllocError>
    ensures { OnOk result (places.new ≡ places.old ++ places_of_line (line item.now)) }
{
    if let Some(place) = place_of(item) {
        places.push(place)?;
    }
    Ok(())
}

/// What the item names, where it is a public.
fn place_of(item: &Item) -> Option<Place>
    ensures { option_to_list result ≡ places_of_line (line item.now) }
{
    match item {
        Item::Public {
            name: _,
            space,
            column,
            row,
        } => Some(Place {
            space: *space,
            column: *column,
            row: *row,
        }),
        _ => None,
    }
}

/// The turns of each namespace.
fn plans_of(alloc: Global, pil: &Pil) -> Result<Items<Items<Turn>>, AllocError>
    requires { IsSound (namespaces pil.now) }
    ensures { IfOk result (λ plans. ArePlans (namespaces pil.now) plans) }
{
    let mut plans = Items::new(alloc);
    for space in pil.spaces.as_slice() {
        plans.push(plan(alloc, space.items.as_slice())?)?;
    }
    Ok(plans)
}

fn larger(a: usize, b: usize) -> usize
    ensures first { a ≤ result }
    ensures second { b ≤ result }
{
    if a < b { b } else { a }
}

/// The most items that a namespace has.
fn most_items(pil: &Pil) -> usize
    ensures { (s : ℕ) → s < length (namespaces pil.now) → length (space_at (namespaces pil.now) s).items ≤ result }
{
    let mut most = 0;
    for space in pil.spaces.as_slice() {
        most = larger(most, space.items.len());
    }
    most
}

/// So many zeros.
fn zeros(alloc: Global, count: usize) -> Result<Items<Fe>, AllocError>
    ensures { IfOk result (λ zeros. length zeros ≡ count) }
{
    Ok(Items::from_vec(vec![in alloc; Fe::ZERO; count]?))
}
