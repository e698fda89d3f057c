//! The tables of small runs.
ghost use Rattle.std.specs.Prelude.{◌<◌};

use crate::sequential;
use gold::Table;
use run_tables::Made;
use rv_model::{Image, Segment, bytes_law};
use std::alloc::{AllocError, Global};
use std::process::Abort;
use std::sync::Arc;
use std::test::Fail;

const START: u32 = 0x1_0078;

// ADDI x10, x0, 7
const SEVEN: u32 = 0x0070_0513;

// ADDI x5, x5, 1
const ONE_MORE: u32 = 0x0012_8293;

// ADDI x17, x0, 93; ECALL
const HALT: [u32; 2] = [0x05D0_0893, 0x0000_0073];

// The image of n times the same instruction, and the halt.
fn image_of(alloc: Global, n: usize, word: u32) -> Result<Option<Arc<Image>>, AllocError> {
    let mut bytes = Vec::new(alloc);
    for _ in 0..n {
        bytes.extend_from_slice(&word.to_le_bytes())?;
    }
    for word in &HALT {
        bytes.extend_from_slice(&word.to_le_bytes())?;
    }
    if bytes.len() < 4 || bytes.len() > 65536 {
        return Ok(None);
    }
    bytes_law(&bytes);
    let mut segments = Vec::new(alloc);
    segments.push(Segment {
        start: START,
        len: bytes.len() as u64,
        exec: true,
        bytes,
    })?;
    let input = Vec::new(alloc);
    let image = Image::new(alloc, u64::from(START), segments, input)?;
    Ok(Some(Arc::new(alloc, image)?))
}

fn made_of(alloc: Global, n: usize, word: u32, limit: u32) -> Result<Made, Fail>
    requires { 0 < limit }
{
    let image = image_of(alloc, n, word)?.ok_or("no image")?;
    let Ok(made) = sequential(alloc, image, limit) else {
        return Err("the run doesn't halt".into());
    };
    Ok(made)
}

// The tables are these instances, each an air's number and its own.
fn assert_instances(rt: &impl Abort, tables: &[Table], expected: &[(u32, u32)]) {
    assert_eq!(rt; tables.len(), expected.len());
    for (table, (air, instance)) in tables.iter().zip(expected) {
        assert_eq!(rt; table.air, *air);
        assert_eq!(rt; table.instance, *instance);
    }
}

// A row's first values.
fn assert_row(rt: &impl Abort, table: &Table, row: usize, expected: &[u64]) {
    for (column, value) in table.columns.as_slice().iter().zip(expected) {
        assert!(rt; row < column.len());
        assert_eq!(rt; column.as_slice()[row], *value);
    }
}

#[test]
fn exit_seven(rt: HostRuntime) -> Result<(), Fail> {
    let made = made_of(rt.alloc(), 1, SEVEN, 3)?;
    assert_eq!(&rt; made.steps, 3);
    assert_eq!(&rt; made.public.exit, 7);
    let tables = made.witness.tables.as_slice();
    assert_instances(&rt, tables, &[(0, 0), (1, 0), (2, 0), (6, 0)]);
    let mem = tables.get(1).ok_or("no table of Mem")?;
    assert_row(&rt, mem, 39, &[1, 536_870_922, 5, 1, 7]);
    assert_row(&rt, mem, 40, &[1, 536_870_922, 34_359_738_368, 0, 7]);
    assert_row(&rt, mem, 41, &[1, 536_870_929, 13, 1, 93]);
    assert_row(&rt, mem, 42, &[1, 536_870_929, 17, 0, 93]);
    assert_row(&rt, mem, 43, &[0, 0, 0, 0, 0]);
    Ok(())
}

/// 4,097 steps in five chunks: one step more than an instance of Main has rows.
#[test]
fn one_step_too_many(rt: HostRuntime) -> Result<(), Fail> {
    let made = made_of(rt.alloc(), 4095, ONE_MORE, 5000)?;
    assert_eq!(&rt; made.steps, 4097);
    let tables = made.witness.tables.as_slice();
    let expected: [(u32, u32); 7] = [(0, 0), (0, 1), (1, 0), (1, 1), (2, 0), (2, 1), (6, 0)];
    assert_instances(&rt, tables, &expected);
    Ok(())
}
