//! Files by hand, and what they read as.
use super::*;
use gold::{AirShape, Form, Profile, Sequence, Shape};
use std::alloc::{AllocError, Global};
use std::test::*;
use zk_layout::machine_shape;

/// One air of three rows and one column, with the values 0, 1 and 2.
const SMALL: [u8; 56] = [
    0x5a, 0x4b, 0x57, 0x54, 1, 0, 0, 0, 1, 0, 0, 0, 1, 0, 0, 0, 0, 0, 0, 0, 0, 0, 0, 0, 1, 0, 0, 0,
    3, 0, 0, 0, 0, 0, 0, 0, 0, 0, 0, 0, 1, 0, 0, 0, 0, 0, 0, 0, 2, 0, 0, 0, 0, 0, 0, 0,
];

fn small_shape(alloc: Global) -> Result<Shape, AllocError> {
    let air = AirShape {
        rows: 3,
        columns: 1,
        most: 1048576,
    };
    Ok(Shape {
        airs: Sequence::from_vec(Vec::from_slice(alloc, &[air])?),
        form: Form::Plain,
    })
}

/// How the small file fails with one byte changed.
fn changed(alloc: Global, at: usize, byte: u8) -> Result<Option<TabErr>, AllocError> {
    let mut bytes = SMALL;
    if at < 56 {
        bytes[at] = byte;
    }
    Ok(read(alloc, &bytes, &small_shape(alloc)?).err())
}

fn fails(kind: TabKind, at: u64) -> Option<TabErr> {
    Some(TabErr { kind, at })
}

#[test]
fn three_values(rt: HostRuntime) -> Result<(), Fail> {
    let shape = small_shape(rt.alloc())?;
    let witness = read(rt.alloc(), &SMALL, &shape)
        .ok()
        .ok_or("the bytes are a file")?;
    assert_eq!(rt; witness.profile, Profile::Small);
    assert_eq!(rt; witness.tables.len(), 1);
    for table in witness.tables.as_slice() {
        assert_eq!(rt; table.air, 0);
        assert_eq!(rt; table.instance, 0);
        assert_eq!(rt; table.columns.len(), 1);
        for column in table.columns.as_slice() {
            assert_eq!(rt; column.as_slice(), [0u64, 1, 2].as_slice());
        }
    }
    Ok(())
}

#[test]
fn cut_anywhere(rt: HostRuntime) -> Result<(), Fail> {
    let shape = small_shape(rt.alloc())?;
    for len in 0..56 {
        assert_eq!(rt;
            read(rt.alloc(), &SMALL[..len], &shape).err(),
            fails(TabKind::Short, len as u64)
        );
    }
    Ok(())
}

#[test]
fn one_byte_changed(rt: HostRuntime) -> Result<(), Fail> {
    assert_eq!(rt; changed(rt.alloc(), 0, 0)?, fails(TabKind::BadMagic, 0));
    assert_eq!(rt; changed(rt.alloc(), 4, 2)?, fails(TabKind::BadVersion, 4));
    assert_eq!(rt; changed(rt.alloc(), 8, 2)?, fails(TabKind::BadAir, 8));
    assert_eq!(rt; changed(rt.alloc(), 14, 17)?, fails(TabKind::TooMany, 12));
    assert_eq!(rt; changed(rt.alloc(), 16, 1)?, fails(TabKind::BadAir, 16));
    assert_eq!(rt; changed(rt.alloc(), 20, 1)?, fails(TabKind::BadOrder, 16));
    assert_eq!(rt; changed(rt.alloc(), 24, 2)?, fails(TabKind::BadShape, 24));
    assert_eq!(rt; changed(rt.alloc(), 28, 4)?, fails(TabKind::BadShape, 28));
    assert_eq!(rt; changed(rt.alloc(), 12, 0)?, fails(TabKind::Trailing, 16));
    assert_eq!(rt; changed(rt.alloc(), 12, 2)?, fails(TabKind::Short, 56));
    Ok(())
}

#[test]
fn value_of_p(rt: HostRuntime) -> Result<(), Fail> {
    let mut bytes = SMALL;
    for i in 0..4 {
        bytes[44 + i] = 255;
    }
    let shape = small_shape(rt.alloc())?;
    assert_eq!(rt;
        read(rt.alloc(), &bytes, &shape).err(),
        fails(TabKind::NotCanonical, 40)
    );
    bytes[40] = 0;
    assert!(rt; read(rt.alloc(), &bytes, &shape).is_ok());
    Ok(())
}

#[test]
fn byte_after_the_end(rt: HostRuntime) -> Result<(), Fail> {
    let mut bytes = Vec::from_slice(rt.alloc(), &SMALL)?;
    bytes.push(0)?;
    let shape = small_shape(rt.alloc())?;
    assert_eq!(rt;
        read(rt.alloc(), &bytes, &shape).err(),
        fails(TabKind::Trailing, 56)
    );
    Ok(())
}

fn put(file: &mut Vec<u8>, numbers: &[u32]) -> Result<(), AllocError> {
    for n in numbers {
        file.extend_from_slice(&n.to_le_bytes())?;
    }
    Ok(())
}

/// The first instance of an air, of zeros.
fn put_zeros(file: &mut Vec<u8>, air: u32, columns: u32, rows: u32) -> Result<(), AllocError> {
    put(file, &[air, 0, columns, rows])?;
    for _ in 0..columns {
        for _ in 0..rows {
            file.extend_from_slice(&[0; 8])?;
        }
    }
    Ok(())
}

/// A machine's file in format 2 with one instance of Main, Mem, Binary and Out each, all of zeros.
fn machine_file(alloc: Global, profile: u32, main_rows: u32) -> Result<Vec<u8>, AllocError> {
    let mut file = Vec::from_slice(alloc, b"ZKWT")?;
    put(&mut file, &[2, profile, 7, 1, 1, 1, 0, 0, 0, 1])?;
    put_zeros(&mut file, 0, 37, main_rows)?;
    put_zeros(&mut file, 1, 15, 8192)?;
    put_zeros(&mut file, 2, 57, 4096)?;
    put_zeros(&mut file, 6, 2, 64)?;
    Ok(file)
}

/// The file of what a machine's file reads as, if it does.
fn written_again(alloc: Global, file: &[u8]) -> Result<Option<Vec<u8>>, AllocError> {
    let shape = machine_shape(alloc, Form::Two)?;
    match read(alloc, file, &shape) {
        Ok(witness) => Ok(Some(write(alloc, &witness)?)),
        Err(_) => Ok(None),
    }
}

#[test]
fn machine_files_in_both_profiles(rt: HostRuntime) -> Result<(), Fail> {
    for (profile, main_rows, len) in [(1, 4096, 4_064_364), (2, 16_384, 7_701_612)] {
        let file = machine_file(rt.alloc(), profile, main_rows)?;
        assert_eq!(rt; file.len(), len);
        match written_again(rt.alloc(), &file)? {
            Some(written) => assert_eq!(rt; written.as_slice(), file.as_slice()),
            None => panic!(rt; "the bytes are a file"),
        }
    }
    Ok(())
}

/// How a file fails that has these numbers after its magic, under the machine's shape of a form.
fn headed(alloc: Global, form: Form, numbers: &[u32]) -> Result<Option<TabErr>, AllocError> {
    let mut file = Vec::from_slice(alloc, b"ZKWT")?;
    put(&mut file, numbers)?;
    let shape = match form {
        Form::Plain => small_shape(alloc)?,
        Form::One => machine_shape(alloc, Form::One)?,
        Form::Two => machine_shape(alloc, Form::Two)?,
    };
    Ok(read(alloc, &file, &shape).err())
}

#[test]
fn machine_headers(rt: HostRuntime) -> Result<(), Fail> {
    let one = |numbers: &[u32]| headed(rt.alloc(), Form::One, numbers);
    let two = |numbers: &[u32]| headed(rt.alloc(), Form::Two, numbers);
    assert_eq!(rt; one(&[2])?, fails(TabKind::BadVersion, 4));
    assert_eq!(rt; one(&[1, 6])?, fails(TabKind::BadAir, 8));
    assert_eq!(rt; one(&[1, 7, 0])?, fails(TabKind::NoMain, 12));
    assert_eq!(rt;
        one(&[1, 7, 1, 0, 0, 0, 0, 0, 2])?,
        fails(TabKind::NotOneOut, 36)
    );
    assert_eq!(rt; two(&[1])?, fails(TabKind::BadVersion, 4));
    assert_eq!(rt; two(&[2])?, fails(TabKind::Short, 8));
    assert_eq!(rt; two(&[2, 3])?, fails(TabKind::BadProfile, 8));
    assert_eq!(rt; two(&[2, 1, 6])?, fails(TabKind::BadAir, 12));
    assert_eq!(rt; two(&[2, 1, 7, 1_048_577])?, fails(TabKind::TooMany, 16));
    assert_eq!(rt; two(&[2, 2, 7, 262_144])?, fails(TabKind::Short, 20));
    assert_eq!(rt; two(&[2, 2, 7, 262_145])?, fails(TabKind::TooMany, 16));
    // Main has Wide's rows in profile Wide.
    assert_eq!(rt;
        two(&[2, 2, 7, 1, 0, 0, 0, 0, 0, 1, 0, 0, 37, 4096])?,
        fails(TabKind::BadShape, 56)
    );
    Ok(())
}
