//! The intermediates that depend on themselves.
ghost use Rattle.std.specs.Prelude.{◌≡◌, ◌<◌, ◌^◌, map, length, IfOk};
ghost use Rattle.pil_ast.specs.Tree.{line};
ghost use Rattle.pil_ast.specs.Order.{NamesInside};
ghost use Rattle.pil_cycles.specs.Cycles.{TellCycles};
ghost use Rattle.pil_cycles.specs.Verdicts.{is_cyclic};

use crate::components::{Verdict, judge};
use crate::finish::finished;
use crate::users::users_of;
use pil_ast::Item;
use std::alloc::{AllocError, Global};

/// Which verdicts are Cyclic.
fn cyclic_flags(alloc: Global, verdicts: &[Verdict]) -> Result<Vec<bool>, AllocError>
    ensures { IfOk result (λ flags. flags.items ≡ map is_cyclic verdicts.now) }
{
    let mut flags = Vec::new(alloc);
    for verdict in verdicts {
        flags.push(matches!(verdict, Verdict::Cyclic))?;
    }
    Ok(flags)
}

/// For each item whether it depends on itself. It takes time in proportion to the size of the items'
/// expressions.
pub fn on_cycles(alloc: Global, items: &[Item]) -> Result<Vec<bool>, AllocError>
    requires few { length items.now < 2 ^ 32 }
    requires inside { NamesInside (map line items.now) }
    ensures { IfOk result (λ flags. TellCycles (map line items.now) flags.items) }
{
    let order = finished(alloc, items)?;
    let users = users_of(alloc, items)?;
    let verdicts = judge(alloc, &users, order.as_slice())?;
    let flags = cyclic_flags(alloc, &verdicts)?;
    Ok(flags)
}
