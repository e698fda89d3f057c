//! Expressions and lists of a text as steps of the namespaces' programs.
ghost use Rattle.std.specs.Prelude.{◌≡◌, ◌<◌, length, map, option_map, All, IfOk, OnOk};
ghost use Rattle.pil_ast.specs.Tree.{term, tuples as list_of, namespaces};
ghost use Rattle.pil_ast.specs.Sound.{IsSound, IsTerm, IsSelector};
ghost use Rattle.pil_program.specs.Publics.{NoPublic, NoneInSelector, NoneIsNamed};
ghost use Rattle.pil_program.specs.Program.{Computes};
ghost use Rattle.instance_pass.specs.Senders.{AllCompute, IsSenderOf, selector};
ghost use Rattle.pil_checker.specs.Programs.{ArePrograms, IsPlacing, IsPlain, nodes_at};

use gold::Fe;
use instance_pass::Sender;
use pil_ast::{Expr, List, Pil, number};
use pil_program::Program;
use sqlite_items::Items;
use std::alloc::{AllocError, Global};

/// The programs of all namespaces, with the steps of their intermediates.
pub fn programs_of(alloc: Global, pil: &Pil) -> Result<Vec<Program>, AllocError>
    requires sound { IsSound (namespaces pil.now) }
    requires unnamed { NoneIsNamed (namespaces pil.now) }
    ensures { IfOk result (λ ps. ArePrograms (namespaces pil.now) ps.items) }
{
    let mut programs = Vec::new(alloc);
    for space in 0..pil.spaces.len() as u32 {
        programs.push(Program::new(alloc, pil, space)?)?;
    }
    Ok(programs)
}

/// The step of an expression's value in the program of its namespace.
pub fn place_in(
    pil: &Pil,
    space: u32,
    expr: &Expr,
    programs: &mut Vec<Program>,
) -> Result<usize, AllocError>
    requires programs { ArePrograms (namespaces pil.now) programs.old.items }
    requires space { space < length (namespaces pil.now) }
    requires term { IsTerm (namespaces pil.now) space (term expr.now) }
    requires unnamed { NoPublic (term expr.now) }
    ensures placing { OnOk result (IsPlacing (namespaces pil.now) programs.old.items programs.new.items) }
    ensures computes { IfOk result (λ k. Computes (namespaces pil.now) space (nodes_at programs.new.items space) 0 (term expr.now) k) }
{
    programs[space as usize].place(pil, space, expr)
}

/// The step of a selector; of 1, where there is none.
fn place_selector(
    pil: &Pil,
    space: u32,
    sel: &Option<Expr>,
    programs: &mut Vec<Program>,
) -> Result<usize, AllocError>
    requires programs { ArePrograms (namespaces pil.now) programs.old.items }
    requires space { space < length (namespaces pil.now) }
    requires sel { IsSelector (namespaces pil.now) space (option_map term sel.now) }
    requires unnamed { NoneInSelector (option_map term sel.now) }
    ensures placing { OnOk result (IsPlacing (namespaces pil.now) programs.old.items programs.new.items) }
    ensures computes { IfOk result (λ k. Computes (namespaces pil.now) space (nodes_at programs.new.items space) 0 (selector (option_map term sel.now)) k) }
{
    match sel {
        Some(expr) => place_in(pil, space, expr, programs),
        None => place_in(pil, space, &number(Fe::ONE), programs),
    }
}

/// The steps of some expressions' values.
fn place_terms(
    alloc: Global,
    pil: &Pil,
    space: u32,
    exprs: &[Expr],
    programs: &mut Vec<Program>,
) -> Result<Items<usize>, AllocError>
    requires programs { ArePrograms (namespaces pil.now) programs.old.items }
    requires space { space < length (namespaces pil.now) }
    requires terms { All (IsTerm (namespaces pil.now) space) (map term exprs.now) }
    requires unnamed { All NoPublic (map term exprs.now) }
    ensures placing { OnOk result (IsPlacing (namespaces pil.now) programs.old.items programs.new.items) }
    ensures computes { IfOk result (λ ks. AllCompute (namespaces pil.now) space (nodes_at programs.new.items space) (map term exprs.now) ks) }
{
    let mut steps = Items::new(alloc);
    for expr in exprs {
        steps.push(place_in(pil, space, expr, programs)?)?;
    }
    Ok(steps)
}

/// The steps of a list of tuples.
pub fn place_list(
    alloc: Global,
    pil: &Pil,
    list: &List,
    programs: &mut Vec<Program>,
) -> Result<Sender, AllocError>
    requires programs { ArePrograms (namespaces pil.now) programs.old.items }
    requires list { IsPlain (namespaces pil.now) (list_of list.now) }
    ensures placing { OnOk result (IsPlacing (namespaces pil.now) programs.old.items programs.new.items) }
    ensures sender { IfOk result (λ x. IsSenderOf (namespaces pil.now) (nodes_at programs.new.items list.now.space) (list_of list.now) x) }
{
    let sel = place_selector(pil, list.space, &list.sel, programs)?;
    let terms = place_terms(alloc, pil, list.space, list.exprs.as_slice(), programs)?;
    Ok(Sender {
        space: list.space,
        sel,
        terms,
    })
}
