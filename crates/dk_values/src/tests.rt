//! Lists and schemas at their limits, and which bytes are text.
use crate::{
    Bytes, ColType, Column, Columns, List, OutOfMemory, Schema, SchemaError, TryCopy, is_name,
    is_utf8,
};
use std::alloc::Global;
use std::test::Fail;

fn bytes(alloc: Global, text: &[u8]) -> Result<Bytes, OutOfMemory> {
    Ok(List::from_vec(Vec::from_slice(alloc, text)?))
}

fn columns(alloc: Global, names: &[&[u8]]) -> Result<Columns, OutOfMemory> {
    let mut columns = List::new(alloc);
    for name in names {
        columns.push(Column {
            name: bytes(alloc, name)?,
            kind: ColType::Big,
        })?;
    }
    Ok(columns)
}

fn fault_of(columns: Columns) -> Option<SchemaError> {
    match Schema::new(columns.into_vec()) {
        Ok(_) => None,
        Err(fault) => Some(fault),
    }
}

#[test]
fn lists_grow_and_are_copied(rt: HostRuntime) -> Result<(), Fail> {
    let alloc = rt.alloc();
    let mut list = bytes(alloc, b"ab")?;
    list.push(b'c')?;
    list.append(bytes(alloc, b"de")?)?;
    list.set(0, b'A');
    assert_eq!(rt; list.len(), 5);
    assert!(rt; !list.is_empty());
    assert_eq!(rt; *list.get(2), b'c');
    assert_eq!(rt; list.as_slice(), b"Abcde".as_slice());
    assert_eq!(rt; list.copy()?, list);
    let deleted: List<Option<Bytes>> = List::from_vec(vec![in alloc; None, Some(list)]?);
    assert_eq!(rt; deleted.copy()?.len(), 2);
    Ok(())
}

#[test]
fn a_schema_has_one_to_sixty_four_columns_of_different_names(rt: HostRuntime) -> Result<(), Fail> {
    let alloc = rt.alloc();
    let long: [u8; 64] = [b'n'; 64];
    let schema = Schema::new(columns(alloc, &[b"a", &long[..63]])?.into_vec());
    let Ok(schema) = schema else {
        return Err(Fail::new("two columns are a schema"));
    };
    assert_eq!(rt; schema.len(), 2);
    assert_eq!(rt; schema.get(0).name.as_slice(), b"a".as_slice());
    assert_eq!(rt; schema.as_slice().len(), 2);
    assert_eq!(rt; schema.copy()?.len(), 2);
    assert_eq!(rt; fault_of(List::new(alloc)), Some(SchemaError::NoColumns));
    let name: &[u8] = b"a";
    let many = columns(alloc, &[name; 65])?;
    assert_eq!(rt;
        fault_of(many),
        Some(SchemaError::TooManyColumns { count: 65 })
    );
    let fault = fault_of(columns(alloc, &[b"a", &long, b"a"])?);
    assert_eq!(rt; fault, Some(SchemaError::NameTooLong { place: 1 }));
    let fault = fault_of(columns(alloc, &[b"a", b"b", b"", b"b"])?);
    assert_eq!(rt; fault, Some(SchemaError::NameTooLong { place: 2 }));
    let fault = fault_of(columns(alloc, &[b"a", b"b", b"b", b"a"])?);
    assert_eq!(rt; fault, Some(SchemaError::SameName { place: 2 }));
    assert!(rt; is_name(b"a") && !is_name(b"") && !is_name(&long));
    Ok(())
}

#[test]
fn text_is_utf8(rt: HostRuntime) -> Result<(), Fail> {
    assert!(rt; is_utf8(b"") && is_utf8("Mühlbauer".as_bytes()));
    // A byte that only stands inside a letter, a letter that is cut, and a letter in more bytes than it needs.
    assert!(rt; !is_utf8(&[0xbc]) && !is_utf8(&[b'M', 0xc3]) && !is_utf8(&[0xc0, 0xaf]));
    Ok(())
}
