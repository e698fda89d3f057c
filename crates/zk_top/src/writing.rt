//! Writing the file of tables, piece by piece.
ghost use Rattle.std.specs.Prelude.{◌≡◌, ◌≤◌, ◌++◌, [], OnOk, OnErr, IfErr, IsErrOf};
ghost use Rattle.gold.specs.Shapes.{HaveShape};
ghost use Rattle.gold.specs.declared.shapes.Form.TheVariants.{Two};
ghost use Rattle.zk_layout.specs.Air.{machine_shape_of};
ghost use Rattle.tab_file.specs.Format.{text};
ghost use Rattle.tab_file.specs.Pieces.{table_text, IsSmall};
ghost use Rattle.host_io.specs.Slots.{SameSlots};
ghost use Rattle.host_io.specs.World.{after_write};
ghost use Rattle.host_io.specs.Calls.{HasRisen, HasWrittenFront};
ghost use Rattle.zk_top.specs.Parts.{IsEarly, HasBehind, IsCut};

use gold::{Table, Witness};
use host_io::{Host, HostErr, Slot, WriteErr, write_all};
use std::alloc::Global;
use tab_file::laws::pieces_are_the_text;
use tab_file::{write_head, write_table};
use zk_words::Status;

// Writes what the buffer holds, and an instance behind it. The buffer is empty then.
fn put_table<H: Host>(
    host: &mut H,
    slot: Slot,
    table: &Table,
    piece: &mut Vec<u8>,
) -> Result<(), WriteErr>
    requires may { H.may_write host.old slot.number }
    requires small { IsSmall table.now }
    ensures may_write { SameSlots (H.may_write host.old) (H.may_write host.new) }
    ensures told { H.tells host.old → H.tells host.new }
    ensures all { H.tells host.old → OnOk result (H.world host.new ≡ after_write (H.world host.old) slot.number (piece.old.items ++ table_text table.now)) }
    ensures empty { OnOk result (piece.new.items ≡ []) }
    ensures front { H.tells host.old → OnErr result (HasWrittenFront (H.world host.old) (H.world host.new) slot.number (piece.old.items ++ table_text table.now)) }
    ensures fault { IsErrOf result WriteErr.WriteFault → HasRisen (H.faults host.old) (H.faults host.new) }
    ensures later { H.faults host.old ≤ H.faults host.new }
{
    let Ok(()) = write_table(piece, table) else {
        return Err(WriteErr::NoMemory);
    };
    write_all(host, slot, piece)?;
    piece.clear();
    Ok(())
}

// Writes the file of tables to a slot, an instance at a time.
fn put_tables<H: Host>(
    alloc: Global,
    host: &mut H,
    slot: Slot,
    witness: &Witness,
) -> Result<(), WriteErr>
    requires may { H.may_write host.old slot.number }
    requires shaped { HaveShape (machine_shape_of Two) witness.now }
    ensures told { H.tells host.old → H.tells host.new }
    ensures all { H.tells host.old → OnOk result (H.world host.new ≡ after_write (H.world host.old) slot.number (text (machine_shape_of Two) witness.now)) }
    ensures front { H.tells host.old → OnErr result (HasWrittenFront (H.world host.old) (H.world host.new) slot.number (text (machine_shape_of Two) witness.now)) }
    ensures fault { IsErrOf result WriteErr.WriteFault → HasRisen (H.faults host.old) (H.faults host.new) }
    ensures later { H.faults host.old ≤ H.faults host.new }
{
    pieces_are_the_text();
    let tables = witness.tables.as_slice();
    let mut piece = Vec::new(alloc);
    let Ok(()) = write_head(&mut piece, witness) else {
        return Err(WriteErr::NoMemory);
    };
    for table in tables {
        put_table(host, slot, table, &mut piece)?;
    }
    write_all(host, slot, &piece)
}

/// Creates the file of this name and writes the tables to it. An error leaves a front of them there, if
/// the file was created.
pub fn create_tables<H: Host>(
    alloc: Global,
    host: &mut H,
    name: &str,
    witness: &Witness,
) -> Result<(), Status>
    requires { HaveShape (machine_shape_of Two) witness.now }
    ensures told { H.tells host.old → H.tells host.new }
    ensures written { H.tells host.old → OnOk result (HasBehind name.now (text (machine_shape_of Two) witness.now) (H.world host.old) (H.world host.new)) }
    ensures cut { H.tells host.old → OnErr result (IsCut name.now (text (machine_shape_of Two) witness.now) (H.world host.old) (H.world host.new)) }
    ensures early { IfErr result IsEarly }
    ensures later { H.faults host.old ≤ H.faults host.new }
    ensures fault { IsErrOf result Status.HostFault → HasRisen (H.faults host.old) (H.faults host.new) }
{
    let slot = match host.create(name) {
        Ok(slot) => slot,
        Err(HostErr::Failed) => return Err(Status::HostFault),
        Err(HostErr::NoMemory) => return Err(Status::NoMemory),
    };
    match put_tables(alloc, host, slot, witness) {
        Ok(()) => Ok(()),
        Err(WriteErr::WriteFault) => Err(Status::HostFault),
        Err(WriteErr::NoMemory) => Err(Status::NoMemory),
    }
}
