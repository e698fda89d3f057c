//! What the rows of an instance send.
ghost use Rattle.std.specs.Prelude.{◌≡◌, ◌<◌, ◌≤◌, ◌++◌, List, length, flat_map, OnOk};
ghost use Rattle.std.specs.List.{range_with_len};
ghost use Rattle.pil_ast.specs.Term.{Namespace, Tuples};
ghost use Rattle.pil_ast.specs.Holds.{row_sent};
ghost use Rattle.pil_program.specs.Program.{IsProgram};
ghost use Rattle.instance_pass.specs.Senders.{IsSenderIn, IsSenderOf};

use crate::parts::push_rows;
use crate::passes::Place;
use crate::senders::Sender;
use bus_check::TupleList;
use pil_ast::Columns;
use pil_program::{Block, InstanceColumns, LANES, Node, Stretch, run};
use std::alloc::{AllocError, Global};

/// Puts what the rows of an instance send at the end.
pub fn send_rows<C: InstanceColumns>(
    alloc: Global,
    columns: &C,
    place: &Place,
    nodes: &[Node],
    sender: &Sender,
    blocks: &mut [Block],
    tuples: &mut TupleList,
) -> Result<(), AllocError>
    requires space { place.now.space < (C.values columns.now).spaces }
    requires instance { place.now.instance < (C.values columns.now).instances place.now.space }
    requires rows { place.now.rows ≡ (C.values columns.now).rows place.now.space }
    requires program { IsProgram ((C.values columns.now).width place.now.space) nodes.now }
    requires inside { IsSenderIn (length blocks.old) sender.now }
    requires room { length nodes.now ≤ length blocks.old }
    ensures sent { OnOk result ((ns : List Namespace) (a : Tuples) → IsSenderOf ns nodes.now a sender.now → a.space ≡ place.now.space → tuples.new ≡ tuples.old ++ flat_map (row_sent ns (C.values columns.now) a place.now.instance) (range_with_len 0 place.now.rows)) }
    ensures room { length blocks.new ≡ length blocks.old }
{
    let mut base = 0;
    while base < place.rows {
        let count = LANES.min(place.rows - base);
        let stretch = Stretch {
            space: place.space,
            instance: place.instance,
            base,
            count,
        };
        run(columns, &stretch, nodes, blocks);
        push_rows(alloc, sender, blocks, count, tuples)?;
        base += count;
    }
    Ok(())
}
