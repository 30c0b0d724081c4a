//! Fields that come back, the place of the first fault, and checksums that were computed elsewhere.
use super::*;
use dk_values::{ColType, Column, List, Schema, TryCopy, Value};
use std::alloc::Global;
use std::process::Abort;
use std::test::*;

#[test]
fn fields_come_back(rt: HostRuntime) -> Result<(), Fail> {
    let mut out = Vec::new(rt.alloc());
    put_u8(&mut out, 0x01)?;
    put_u16(&mut out, 0x0302)?;
    put_u32(&mut out, 0x0706_0504)?;
    put_u64(&mut out, 0x0f0e_0d0c_0b0a_0908)?;
    let bytes: [u8; 15] = [1, 2, 3, 4, 5, 6, 7, 8, 9, 10, 11, 12, 13, 14, 15];
    assert_eq!(rt; out.as_slice(), bytes.as_slice());
    let mut cursor = Cursor::new(&out);
    assert_eq!(rt; cursor.u8()?, 0x01);
    assert_eq!(rt; cursor.u16()?, 0x0302);
    assert_eq!(rt; cursor.u32()?, 0x0706_0504);
    assert_eq!(rt; cursor.take(3)?, [8, 9, 10].as_slice());
    assert_eq!(rt; cursor.u64(), Err(Short { at: 10 }));
    assert_eq!(rt; cursor.at(), 10);
    Ok(())
}

#[test]
fn a_short_field(rt: HostRuntime) {
    let mut cursor = Cursor::new(&[0; 7]);
    assert_eq!(rt; cursor.u64(), Err(Short { at: 0 }));
    assert_eq!(rt; cursor.left(), 7);
}

#[test]
fn checksums(rt: HostRuntime) {
    let bytes: [u8; 21] = [
        0, 1, 2, 3, 4, 5, 6, 7, 8, 9, 10, 11, 12, 13, 14, 15, 16, 17, 18, 19, 20,
    ];
    assert_eq!(rt; checksum(&[]), 0xa411_9815_b82e_e5ed);
    assert_eq!(rt; checksum(b"DUCK"), 0x4b6a_86f7_297d_2f32);
    assert_eq!(rt; checksum(&bytes[..8]), 0xbb01_b589_f7ca_74d8);
    assert_eq!(rt; checksum(&bytes), 0x1c7c_f74c_fe99_cef4);
}

/// The table of two columns `a BIGINT, b VARCHAR`.
fn two_columns(alloc: Global) -> Result<Schema, Fail> {
    let a = List::from_vec(Vec::from_slice(alloc, b"a")?);
    let b = List::from_vec(Vec::from_slice(alloc, b"b")?);
    let mut columns = Vec::new(alloc);
    columns.push(Column {
        name: a,
        kind: ColType::Big,
    })?;
    columns.push(Column {
        name: b,
        kind: ColType::Text,
    })?;
    Ok(Schema::new(columns)?)
}

#[test]
fn columns_come_back(rt: HostRuntime) -> Result<(), Fail> {
    let schema = two_columns(rt.alloc())?;
    let mut out = Vec::new(rt.alloc());
    put_columns(&mut out, &schema)?;
    assert_eq!(rt; out.as_slice(), [2, 0, 2, 1, 97, 3, 1, 98].as_slice());
    assert_eq!(rt; columns_len(&schema), 8);
    let mut cursor = Cursor::new(&out);
    assert!(rt; read_columns(rt.alloc(), &mut cursor)? == schema);
    assert!(rt; cursor.finish().is_ok());
    Ok(())
}

#[test]
fn faults_of_columns(rt: HostRuntime) {
    let faults: [(&[u8], u64); 9] = [
        (&[1], 0),
        (&[0, 0], 0),
        (&[65, 0], 0),
        (&[1, 0], 2),
        (&[1, 0, 4, 1, 97], 2),
        (&[1, 0, 2, 0], 3),
        (&[1, 0, 2, 64], 3),
        (&[1, 0, 2, 2, 97], 4),
        (&[2, 0, 2, 1, 97, 1, 1, 97], 6),
    ];
    for (bytes, at) in faults {
        let mut cursor = Cursor::new(bytes);
        let read = read_columns(rt.alloc(), &mut cursor);
        assert!(rt; matches!(read, Err(FieldError::Malformed { at: place }) if place == at));
    }
}

/// The row is written as these bytes, and read back.
fn row_comes_back<R: AllocGlobal + Abort>(rt: &R, row: &[Value], bytes: &[u8]) -> Result<(), Fail> {
    let schema = two_columns(rt.alloc())?;
    let mut cursor = Cursor::new(bytes);
    let back = read_row(rt.alloc(), &mut cursor, &schema)?;
    assert_eq!(rt; back.as_slice(), row);
    assert!(rt; cursor.finish().is_ok());
    let mut out = Vec::new(rt.alloc());
    put_row(&mut out, back.as_slice(), &schema)?;
    assert_eq!(rt; out.as_slice(), bytes);
    assert_eq!(rt; row_len(back.as_slice(), &schema), bytes.len());
    Ok(())
}

#[test]
fn rows_come_back(rt: HostRuntime) -> Result<(), Fail> {
    let text = Value::Text(List::from_vec(Vec::from_slice(rt.alloc(), b"hi")?));
    row_comes_back(
        &rt,
        &[Value::Big(1), text],
        &[1, 1, 0, 0, 0, 0, 0, 0, 0, 1, 2, 0, 104, 105],
    )?;
    row_comes_back(&rt, &[Value::Null, Value::Null], &[0, 0])
}

#[test]
fn faults_of_rows(rt: HostRuntime) -> Result<(), Fail> {
    let schema = two_columns(rt.alloc())?;
    let faults: [(&[u8], u64); 5] = [
        (&[], 0),
        (&[2, 0], 0),
        (&[1, 1, 0, 0], 1),
        (&[0, 1, 2, 0, 104], 4),
        (&[0, 1, 1, 0, 255], 4),
    ];
    for (bytes, at) in faults {
        let mut cursor = Cursor::new(bytes);
        let read = read_row(rt.alloc(), &mut cursor, &schema);
        assert!(rt; matches!(read, Err(FieldError::Malformed { at: place }) if place == at));
    }
    assert_eq!(rt;
        Cursor::new(&[0]).finish(),
        Err(FieldError::Malformed { at: 0 })
    );
    Ok(())
}
