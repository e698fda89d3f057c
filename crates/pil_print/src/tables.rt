//! Where the names of a text are found by their numbers.
ghost use Rattle.std.specs.Prelude.{◌≡◌, ◌<◌, ◌≤◌, ◌+◌, ◌-◌, ◌++◌, ◌^◌, map, filter, length, get_or, sum_by, slice_get, Some, ℕ, IfOk, OnOk};
ghost use Rattle.pil_ast.specs.Tree.{line, namespaces, namespace};
ghost use Rattle.pil_ast.specs.Term.{columns_of as columns_of_line, width, space_at, item_at};
ghost use Rattle.pil_ast.specs.Sound.{IsSound};
ghost use Rattle.pil_print.specs.Statements.{is_constant as is_constant_line, is_commit as is_commit_line, is_public as is_public_line, declared as declared_of, published, spot_in};
ghost use Rattle.pil_print.specs.Tables.{firsts_from, IsTable, IsNames, text_names};
ghost use Rattle.pil_print.specs.declared.tables.Columns.{Columns as ColumnsOf};

use pil_ast::{Item, Pil, Space, limit_laws};
use sqlite_items::Items;
use std::alloc::{AllocError, Global};

/// The items of a namespace that declare columns, in order of the columns' numbers, and the number of
/// the first column of each.
#[derive(Drop)]
pub struct Columns<'a> {
    pub items: Items<&'a Item>,
    pub firsts: Items<u32>,
}

/// The namespaces of a text, the columns of each, and the publics of all in order of the text.
#[derive(Drop)]
pub struct Names<'a> {
    pub spaces: &'a [Space],
    pub columns: Items<Columns<'a>>,
    pub publics: Items<&'a Item>,
}

/// How many columns an item declares.
fn columns_of(item: &Item) -> u32
    ensures { result ≡ columns_of_line (line item.now) }
{
    match item {
        Item::Constant { name: _, len } => len.unwrap_or(1),
        Item::Commit { name: _, len } => len.unwrap_or(1),
        _ => 0,
    }
}

fn is_constant(item: &Item) -> bool
    ensures { result ≡ is_constant_line (line item.now) }
{
    matches!(item, Item::Constant { .. })
}

fn is_commit(item: &Item) -> bool
    ensures { result ≡ is_commit_line (line item.now) }
{
    matches!(item, Item::Commit { .. })
}

fn is_public(item: &Item) -> bool
    ensures { result ≡ is_public_line (line item.now) }
{
    matches!(item, Item::Public { .. })
}

/// Puts the constant polynomials behind what is there.
fn add_constants<'a>(items: &'a [Item], found: &mut Items<&'a Item>) -> Result<(), AllocError>
    ensures { OnOk result (map (λ i. line i.now) found.new ≡ map (λ i. line i.now) found.old ++ filter is_constant_line (map line items.now)) }
{
    for item in items {
        if is_constant(item) {
            found.push(item)?;
        }
    }
    Ok(())
}

/// Puts the committed polynomials behind what is there.
fn add_commits<'a>(items: &'a [Item], found: &mut Items<&'a Item>) -> Result<(), AllocError>
    ensures { OnOk result (map (λ i. line i.now) found.new ≡ map (λ i. line i.now) found.old ++ filter is_commit_line (map line items.now)) }
{
    for item in items {
        if is_commit(item) {
            found.push(item)?;
        }
    }
    Ok(())
}

/// Puts the publics behind what is there.
fn add_publics<'a>(items: &'a [Item], found: &mut Items<&'a Item>) -> Result<(), AllocError>
    ensures { OnOk result (map (λ i. line i.now) found.new ≡ map (λ i. line i.now) found.old ++ filter is_public_line (map line items.now)) }
{
    for item in items {
        if is_public(item) {
            found.push(item)?;
        }
    }
    Ok(())
}

/// The number of the first column of each.
fn first_columns(alloc: Global, items: &[&Item]) -> Result<Items<u32>, AllocError>
    requires { sum_by (λ i. columns_of_line (line i.now)) items.now < 2 ^ 32 }
    ensures { IfOk result (λ firsts. firsts ≡ firsts_from 0 (map (λ i. line i.now) items.now)) }
{
    let mut firsts = Items::new(alloc);
    let mut columns: u32 = 0;
    for item in items {
        firsts.push(columns)?;
        columns += columns_of(item);
    }
    Ok(firsts)
}

/// The columns of a namespace with these items.
fn table<'a>(alloc: Global, items: &'a [Item]) -> Result<Columns<'a>, AllocError>
    requires { width (map line items.now) < 2 ^ 32 }
    ensures { IfOk result (IsTable (declared_of (map line items.now))) }
{
    let mut declared = Items::new(alloc);
    add_constants(items, &mut declared)?;
    add_commits(items, &mut declared)?;
    let firsts = first_columns(alloc, declared.as_slice())?;
    Ok(Columns {
        items: declared,
        firsts,
    })
}

/// The last of ascending numbers, the first of which is at most `column`, that is.
fn last_up_to(firsts: &[u32], column: u32) -> usize
    requires some { 0 < length firsts.now }
    requires first { get_or firsts.now 0 0 ≤ column }
    ensures within { result < length firsts.now }
    ensures low { get_or firsts.now result 0 ≤ column }
    ensures high { result + 1 < length firsts.now → column < get_or firsts.now (result + 1) 0 }
{
    let mut low = 0;
    let mut high = firsts.len();
    'search: while high - low > 1 {
        let middle = low + (high - low) / 2;
        if firsts[middle] <= column {
            low = middle;
        } else {
            high = middle;
        }
    }
    low
}

/// A column of a namespace: the item that declares it, and its index there.
#[derive(Clone, Copy)]
pub struct Spot<'a> {
    pub item: &'a Item,
    pub index: u32,
}

impl<'a> Columns<'a> {
    /// The column with this number. It takes time in proportion to the logarithm of the number of items.
    pub fn spot(&self, column: u32) -> Spot<'a>
        requires table { self.now.firsts ≡ firsts_from 0 (map (λ i. line i.now) self.now.items) }
        requires within { column < width (map (λ i. line i.now) self.now.items) }
        ensures item { line result.item.now ≡ (spot_in (map (λ i. line i.now) self.now.items) column).item }
        ensures index { result.index ≡ (spot_in (map (λ i. line i.now) self.now.items) column).index }
    {
        let at = last_up_to(self.firsts.as_slice(), column);
        let item = self.items.as_slice()[at];
        let first = self.firsts.as_slice()[at];
        Spot {
            item,
            index: column - first,
        }
    }
}

/// The columns of each namespace.
fn tables<'a>(alloc: Global, spaces: &'a [Space]) -> Result<Items<Columns<'a>>, AllocError>
    requires { IsSound (map namespace spaces.now) }
    ensures length { IfOk result (λ ts. length ts ≡ length spaces.now) }
    ensures each { IfOk result (λ ts. (s : ℕ) (c : ColumnsOf) → slice_get ts s ≡ Some c → IsTable (declared_of (space_at (map namespace spaces.now) s).items) c) }
{
    limit_laws();
    let mut tables = Items::new(alloc);
    for space in spaces {
        tables.push(table(alloc, space.items.as_slice())?)?;
    }
    Ok(tables)
}

/// The publics in order of the text.
fn publics<'a>(alloc: Global, spaces: &'a [Space]) -> Result<Items<&'a Item>, AllocError>
    ensures { IfOk result (λ found. map (λ i. line i.now) found ≡ published (map namespace spaces.now)) }
{
    let mut found = Items::new(alloc);
    for space in spaces {
        add_publics(space.items.as_slice(), &mut found)?;
    }
    Ok(found)
}

/// The names of a text.
pub fn names_of<'a>(alloc: Global, pil: &'a Pil) -> Result<Names<'a>, AllocError>
    requires { IsSound (namespaces pil.now) }
    ensures text { IfOk result (λ names. text_names names ≡ namespaces pil.now) }
    ensures names { IfOk result IsNames }
{
    let spaces = pil.spaces.as_slice();
    let columns = tables(alloc, spaces)?;
    let publics = publics(alloc, spaces)?;
    Ok(Names {
        spaces,
        columns,
        publics,
    })
}
