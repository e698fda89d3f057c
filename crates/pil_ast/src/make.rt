//! Expressions from their parts.
ghost use Rattle.std.specs.Prelude.{◌≡◌, IfOk};
ghost use Rattle.pil_ast.specs.Tree.{term};
ghost use Rattle.pil_ast.specs.Term.{num, col, mid, public as public', opp, ◌⊕◌, ◌⊖◌, ◌⊗◌};

use crate::tree::Expr;
use gold::Fe;
use sqlite_items::Boxed;
use std::alloc::{AllocError, Global};

pub fn number(n: Fe) -> Expr
    ensures { term result ≡ num n }
{
    Expr::Number(n)
}

/// The column at this row, or at the next.
pub fn column(space: u32, column: u32, next: bool) -> Expr
    ensures { term result ≡ col space column next }
{
    Expr::Column {
        space,
        column,
        next,
    }
}

/// The intermediate at this row, or at the next.
pub fn inter(space: u32, item: u32, next: bool) -> Expr
    ensures { term result ≡ mid space item next }
{
    Expr::Inter { space, item, next }
}

/// The public with this number.
pub fn public(number: u32) -> Expr
    ensures { term result ≡ public' number }
{
    Expr::Public(number)
}

pub fn neg(alloc: Global, a: Expr) -> Result<Expr, AllocError>
    ensures { IfOk result (λ e. term e ≡ opp (term a)) }
{
    Ok(Expr::Neg(Boxed::new(alloc, a)?))
}

pub fn add(alloc: Global, a: Expr, b: Expr) -> Result<Expr, AllocError>
    ensures { IfOk result (λ e. term e ≡ term a ⊕ term b) }
{
    Ok(Expr::Add(Boxed::new(alloc, a)?, Boxed::new(alloc, b)?))
}

pub fn sub(alloc: Global, a: Expr, b: Expr) -> Result<Expr, AllocError>
    ensures { IfOk result (λ e. term e ≡ term a ⊖ term b) }
{
    Ok(Expr::Sub(Boxed::new(alloc, a)?, Boxed::new(alloc, b)?))
}

pub fn mul(alloc: Global, a: Expr, b: Expr) -> Result<Expr, AllocError>
    ensures { IfOk result (λ e. term e ≡ term a ⊗ term b) }
{
    Ok(Expr::Mul(Boxed::new(alloc, a)?, Boxed::new(alloc, b)?))
}
