//! The tables of a file.
ghost use Rattle.std.specs.Prelude.{IfOk, IfErr};
ghost use Rattle.gold.specs.Shapes.{HaveShape};
ghost use Rattle.zk_top.specs.Parts.{IsOnlyTables, IsTablesRefusal};

use gold::{Shape, Witness};
use std::alloc::Global;
use tab_file::TabKind;
use tab_file::laws::{one_text, reads_or_fails};
use zk_words::Status;

/// A table file has at most so many bytes.
pub const TABLES_LIMIT: u64 = 1 << 48;

/// The tables of a file, which have the shape. The file is let go once they are read.
pub fn tables_of(alloc: Global, file: Vec<u8>, shape: &Shape) -> Result<Witness, Status>
    ensures only { IfOk result (λ witness. IsOnlyTables file.items shape.now witness) }
    ensures shaped { IfOk result (λ witness. HaveShape shape.now witness) }
    ensures refused { IfErr result (IsTablesRefusal file.items shape.now) }
{
    reads_or_fails();
    one_text();
    match tab_file::read(alloc, &file, shape) {
        Ok(witness) => Ok(witness),
        Err(e) => match e.kind {
            TabKind::NoMemory => Err(Status::NoMemory),
            _ => Err(Status::BadTables(e)),
        },
    }
}
