//! The tuples of the selected rows.
ghost use Rattle.std.specs.Prelude.{◌≡◌, ◌<◌, ◌++◌, ℕ, true, false, map, flat_map, All, OnOk, IfOk, MatchOption, option_map};
ghost use Rattle.std.specs.List.{range_with_len};
ghost use Rattle.pil_ast.specs.Tree.{term, tuples as list_of, namespaces};
ghost use Rattle.pil_ast.specs.Columns.{Fits};
ghost use Rattle.pil_ast.specs.Sound.{IsSound, IsTerm, IsSelector};
ghost use Rattle.pil_ast.specs.Filled.{IsMadeOf, IsFilled};
ghost use Rattle.pil_ast.specs.Holds.{selected, tuple, row_sent, sent, all_sent};
ghost use Rattle.bus_check.specs.Bus.{IsListOf};
ghost use Rattle.bus_check.specs.Run.{sent_from};

use crate::tuples::TupleList;
use pil_ast::{Columns, Expr, List, Pil, RowValues, eval};
use std::alloc::{AllocError, Global};

/// Whether a row is selected.
fn is_selected<C: Columns>(
    pil: &Pil,
    columns: &C,
    space: u32,
    sel: &Option<Expr>,
    instance: u32,
    row: u32,
    inters: &RowValues,
) -> bool
    requires sound { IsSound (namespaces pil.now) }
    requires fits { Fits (namespaces pil.now) (C.values columns.now) }
    requires made { IsMadeOf (namespaces pil.now) inters.now }
    requires space { space < (C.values columns.now).spaces }
    requires instance { instance < (C.values columns.now).instances space }
    requires row { row < (C.values columns.now).rows space }
    requires filled { IsFilled (namespaces pil.now) (C.values columns.now) space instance row inters.now }
    requires sel { IsSelector (namespaces pil.now) space (option_map term sel.now) }
    ensures { result ≡ selected (namespaces pil.now) (C.values columns.now) space instance row (option_map term sel.now) }
{
    match sel {
        None => true,
        Some(expr) => eval(pil, columns, expr, instance, row, inters).value() != 0,
    }
}

/// The values of expressions at a row.
fn tuple_at<C: Columns>(
    alloc: Global,
    pil: &Pil,
    columns: &C,
    space: u32,
    exprs: &[Expr],
    instance: u32,
    row: u32,
    inters: &RowValues,
) -> Result<Vec<u64>, AllocError>
    requires sound { IsSound (namespaces pil.now) }
    requires fits { Fits (namespaces pil.now) (C.values columns.now) }
    requires made { IsMadeOf (namespaces pil.now) inters.now }
    requires space { space < (C.values columns.now).spaces }
    requires instance { instance < (C.values columns.now).instances space }
    requires row { row < (C.values columns.now).rows space }
    requires filled { IsFilled (namespaces pil.now) (C.values columns.now) space instance row inters.now }
    requires terms { All (IsTerm (namespaces pil.now) space) (map term exprs.now) }
    ensures { IfOk result (λ values. values.items ≡ tuple (namespaces pil.now) (C.values columns.now) space instance row (map term exprs.now)) }
{
    let mut values = Vec::new(alloc);
    for expr in exprs {
        values.push(eval(pil, columns, expr, instance, row, inters).value())?;
    }
    Ok(values)
}

/// The tuple of a row of the list's namespace, where the row is selected.
pub fn row_tuple<C: Columns>(
    alloc: Global,
    pil: &Pil,
    columns: &C,
    list: &List,
    instance: u32,
    row: u32,
    inters: &mut RowValues,
) -> Result<Option<Vec<u64>>, AllocError>
    requires sound { IsSound (namespaces pil.now) }
    requires fits { Fits (namespaces pil.now) (C.values columns.now) }
    requires made { IsMadeOf (namespaces pil.now) inters.old }
    requires list { IsListOf (namespaces pil.now) (list_of list.now) }
    requires instance { instance < (C.values columns.now).instances list.now.space }
    requires row { row < (C.values columns.now).rows list.now.space }
    ensures made { IsMadeOf (namespaces pil.now) inters.new }
    ensures sent { IfOk result (λ found. MatchOption found (selected (namespaces pil.now) (C.values columns.now) list.now.space instance row (list_of list.now).sel ≡ false) (λ values. (selected (namespaces pil.now) (C.values columns.now) list.now.space instance row (list_of list.now).sel ≡ true) × (values.items ≡ tuple (namespaces pil.now) (C.values columns.now) list.now.space instance row (list_of list.now).terms))) }
{
    let space = list.space;
    inters.fill(pil, columns, space, instance, row);
    if !is_selected(pil, columns, space, &list.sel, instance, row, inters) {
        return Ok(None);
    }
    let exprs = list.exprs.as_slice();
    let values = tuple_at(alloc, pil, columns, space, exprs, instance, row, inters)?;
    Ok(Some(values))
}

/// Puts what a row sends at the end.
fn push_row<C: Columns>(
    alloc: Global,
    pil: &Pil,
    columns: &C,
    list: &List,
    instance: u32,
    row: u32,
    inters: &mut RowValues,
    tuples: &mut TupleList,
) -> Result<(), AllocError>
    requires sound { IsSound (namespaces pil.now) }
    requires fits { Fits (namespaces pil.now) (C.values columns.now) }
    requires made { IsMadeOf (namespaces pil.now) inters.old }
    requires list { IsListOf (namespaces pil.now) (list_of list.now) }
    requires instance { instance < (C.values columns.now).instances list.now.space }
    requires row { row < (C.values columns.now).rows list.now.space }
    ensures made { IsMadeOf (namespaces pil.now) inters.new }
    ensures sent { OnOk result (tuples.new ≡ tuples.old ++ row_sent (namespaces pil.now) (C.values columns.now) (list_of list.now) instance row) }
{
    match row_tuple(alloc, pil, columns, list, instance, row, inters)? {
        Some(values) => tuples.push(alloc, values.as_slice()),
        None => Ok(()),
    }
}

/// Puts what the rows of an instance send at the end.
fn push_instance<C: Columns>(
    alloc: Global,
    pil: &Pil,
    columns: &C,
    list: &List,
    instance: u32,
    inters: &mut RowValues,
    tuples: &mut TupleList,
) -> Result<(), AllocError>
    requires sound { IsSound (namespaces pil.now) }
    requires fits { Fits (namespaces pil.now) (C.values columns.now) }
    requires made { IsMadeOf (namespaces pil.now) inters.old }
    requires list { IsListOf (namespaces pil.now) (list_of list.now) }
    requires instance { instance < (C.values columns.now).instances list.now.space }
    ensures made { IsMadeOf (namespaces pil.now) inters.new }
    ensures sent { OnOk result (tuples.new ≡ tuples.old ++ flat_map (row_sent (namespaces pil.now) (C.values columns.now) (list_of list.now) instance) (range_with_len 0 ((C.values columns.now).rows list.now.space))) }
{
    for row in 0..pil.rows(list.space) {
        push_row(alloc, pil, columns, list, instance, row, inters, tuples)?;
    }
    Ok(())
}

/// Puts what a list's rows of all instances send at the end.
pub fn push_list<C: Columns>(
    alloc: Global,
    pil: &Pil,
    columns: &C,
    list: &List,
    inters: &mut RowValues,
    tuples: &mut TupleList,
) -> Result<(), AllocError>
    requires sound { IsSound (namespaces pil.now) }
    requires fits { Fits (namespaces pil.now) (C.values columns.now) }
    requires made { IsMadeOf (namespaces pil.now) inters.old }
    requires list { IsListOf (namespaces pil.now) (list_of list.now) }
    ensures made { IsMadeOf (namespaces pil.now) inters.new }
    ensures sent { OnOk result (tuples.new ≡ tuples.old ++ sent (namespaces pil.now) (C.values columns.now) (list_of list.now)) }
{
    let instances = columns.instances(list.space);
    for instance in 0..instances {
        push_instance(alloc, pil, columns, list, instance, inters, tuples)?;
    }
    Ok(())
}

/// Puts what a sum of lists sends at the end.
pub fn push_lists<C: Columns>(
    alloc: Global,
    pil: &Pil,
    columns: &C,
    lists: &[List],
    inters: &mut RowValues,
    tuples: &mut TupleList,
) -> Result<(), AllocError>
    requires sound { IsSound (namespaces pil.now) }
    requires fits { Fits (namespaces pil.now) (C.values columns.now) }
    requires made { IsMadeOf (namespaces pil.now) inters.old }
    requires lists { All (IsListOf (namespaces pil.now)) (map list_of lists.now) }
    ensures made { IsMadeOf (namespaces pil.now) inters.new }
    ensures sent { OnOk result (tuples.new ≡ tuples.old ++ all_sent (namespaces pil.now) (C.values columns.now) (map list_of lists.now)) }
{
    for list in lists {
        push_list(alloc, pil, columns, list, inters, tuples)?;
    }
    Ok(())
}

/// Puts what the lists of a sum send from an instance of a namespace at the end.
pub fn push_from<C: Columns>(
    alloc: Global,
    pil: &Pil,
    columns: &C,
    lists: &[List],
    space: u32,
    instance: u32,
    inters: &mut RowValues,
    tuples: &mut TupleList,
) -> Result<(), AllocError>
    requires sound { IsSound (namespaces pil.now) }
    requires fits { Fits (namespaces pil.now) (C.values columns.now) }
    requires made { IsMadeOf (namespaces pil.now) inters.old }
    requires lists { All (IsListOf (namespaces pil.now)) (map list_of lists.now) }
    requires space { space < (C.values columns.now).spaces }
    requires instance { instance < (C.values columns.now).instances space }
    ensures made { OnOk result (IsMadeOf (namespaces pil.now) inters.new) }
    ensures sent { OnOk result (tuples.new ≡ tuples.old ++ flat_map (sent_from (namespaces pil.now) (record { columns = C.values columns.now; space = space; instance = instance })) (map list_of lists.now)) }
{
    for list in lists {
        push_list_from(alloc, pil, columns, list, space, instance, inters, tuples)?;
    }
    Ok(())
}

/// Puts what a list sends from an instance of a namespace at the end, where it is over that namespace.
fn push_list_from<C: Columns>(
    alloc: Global,
    pil: &Pil,
    columns: &C,
    list: &List,
    space: u32,
    instance: u32,
    inters: &mut RowValues,
    tuples: &mut TupleList,
) -> Result<(), AllocError>
    requires sound { IsSound (namespaces pil.now) }
    requires fits { Fits (namespaces pil.now) (C.values columns.now) }
    requires made { IsMadeOf (namespaces pil.now) inters.old }
    requires list { IsListOf (namespaces pil.now) (list_of list.now) }
    requires space { space < (C.values columns.now).spaces }
    requires instance { instance < (C.values columns.now).instances space }
    ensures made { OnOk result (IsMadeOf (namespaces pil.now) inters.new) }
    ensures sent { OnOk result (tuples.new ≡ tuples.old ++ sent_from (namespaces pil.now) (record { columns = C.values columns.now; space = space; instance = instance }) (list_of list.now)) }
{
    if list.space == space {
        push_instance(alloc, pil, columns, list, instance, inters, tuples)
    } else {
        Ok(())
    }
}
