//! A file by hand, in pieces.
ghost use Rattle.std.specs.Prelude.{◌≡◌, IfOk};
ghost use Rattle.tab_file.specs.Stands.{taken};

use super::*;
use gold::{AirShape, Form, Profile, Sequence, Shape};
use std::alloc::{AllocError, Global};
use std::test::*;

/// One air of three rows and one column, with the values 0, 1 and 2.
const SMALL: [u8; 56] = [
    0x5a, 0x4b, 0x57, 0x54, 1, 0, 0, 0, 1, 0, 0, 0, 1, 0, 0, 0, 0, 0, 0, 0, 0, 0, 0, 0, 1, 0, 0, 0,
    3, 0, 0, 0, 0, 0, 0, 0, 0, 0, 0, 0, 1, 0, 0, 0, 0, 0, 0, 0, 2, 0, 0, 0, 0, 0, 0, 0,
];

fn small_reader(alloc: Global) -> Result<TabReader, AllocError>
    ensures { IfOk result (λ r. taken r ≡ 0) }
{
    let air = AirShape {
        rows: 3,
        columns: 1,
        most: 1048576,
    };
    let shape = Shape {
        airs: Sequence::from_vec(Vec::from_slice(alloc, &[air])?),
        form: Form::Plain,
    };
    TabReader::new(alloc, &shape)
}

#[test]
fn two_pieces(rt: HostRuntime) -> Result<(), Fail> {
    let mut reader = small_reader(rt.alloc())?;
    assert_eq!(rt; reader.profile(), Some(Profile::Small));
    assert!(rt; reader.counts().is_none());
    let first = reader.feed(&SMALL[..32]).ok().ok_or("a front of a file")?;
    assert_eq!(rt; first.len(), 0);
    assert!(rt; reader.counts().is_some());
    let second = reader.feed(&SMALL[32..]).ok().ok_or("a file")?;
    assert_eq!(rt; second.len(), 1);
    for table in second.as_slice() {
        assert_eq!(rt; table.columns.len(), 1);
        for column in table.columns.as_slice() {
            assert_eq!(rt; column.as_slice(), [0u64, 1, 2].as_slice());
        }
    }
    assert!(rt; reader.end().is_ok());
    Ok(())
}

#[test]
fn byte_by_byte(rt: HostRuntime) -> Result<(), Fail> {
    let mut reader = small_reader(rt.alloc())?;
    for i in 0..56 {
        let tables = reader
            .feed(&SMALL[i..i + 1])
            .ok()
            .ok_or("a front of a file")?;
        assert_eq!(rt; tables.len(), if i == 55 { 1 } else { 0 });
    }
    assert!(rt; reader.end().is_ok());
    Ok(())
}

#[test]
fn too_short(rt: HostRuntime) -> Result<(), Fail> {
    let mut reader = small_reader(rt.alloc())?;
    assert!(rt; reader.feed(&SMALL[..8]).is_ok());
    let short = TabErr {
        kind: TabKind::Short,
        at: 8,
    };
    assert_eq!(rt; reader.end(), Err(short));
    Ok(())
}

#[test]
fn failure_again(rt: HostRuntime) -> Result<(), Fail> {
    let mut reader = small_reader(rt.alloc())?;
    let order = Some(TabErr {
        kind: TabKind::BadOrder,
        at: 16,
    });
    assert!(rt; reader.feed(&SMALL[..20]).is_ok());
    assert_eq!(rt; reader.feed(&[1, 0, 0, 0, 1]).err(), order);
    assert_eq!(rt; reader.feed(&[0]).err(), order);
    Ok(())
}
