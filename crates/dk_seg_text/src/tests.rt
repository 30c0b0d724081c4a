//! Bodies that are spelled out, read again, and the place of the first fault of each.
use crate::dictionary::Dictionary;
use crate::plain::Plain;
use dk_bytes::SegError;
use dk_seg_body::{Body, decode};
use dk_values::{ColType, List, OutOfMemory, Value};
use std::alloc::Global;
use std::process::Abort;
use std::test::*;

fn text(alloc: Global, bytes: &[u8]) -> Result<Value, OutOfMemory> {
    Ok(Value::Text(List::from_vec(Vec::from_slice(alloc, bytes)?)))
}

fn check_plain(
    rt: &impl Abort,
    alloc: Global,
    kind: ColType,
    values: &[Value],
    bytes: &[u8],
) -> Result<(), Fail> {
    let mut out = Vec::new(alloc);
    assert_eq!(rt; Plain::size(values, kind), Some(bytes.len()));
    Plain::encode(values, kind, &mut out)?;
    assert_eq!(rt; out.as_slice(), bytes);
    let back = decode::<Plain>(alloc, bytes, kind, values.len())?;
    assert!(rt; back.as_slice() == values);
    Ok(())
}

#[test]
fn plain_bodies(rt: HostRuntime) -> Result<(), Fail> {
    let alloc = rt.alloc();
    let texts = [text(alloc, b"a")?, text(alloc, b"")?];
    check_plain(&rt, alloc, ColType::Text, &texts, &[1, 0, 97, 0, 0])?;
    check_plain(
        &rt,
        alloc,
        ColType::Int,
        &[Value::Int(-2)],
        &[254, 255, 255, 255],
    )?;
    check_plain(&rt, alloc, ColType::Bool, &[], &[])?;
    assert_eq!(rt; Plain::size(&texts, ColType::Bool), None);
    Ok(())
}

#[test]
fn a_dictionary(rt: HostRuntime) -> Result<(), Fail> {
    let alloc = rt.alloc();
    let texts = [text(alloc, b"a")?, text(alloc, b"b")?, text(alloc, b"a")?];
    let bytes: [u8; 10] = [2, 0, 1, 0, 97, 1, 0, 98, 1, 2];
    let mut out = Vec::new(alloc);
    assert_eq!(rt; Dictionary::size(&texts, ColType::Text), Some(10));
    Dictionary::encode(&texts, ColType::Text, &mut out)?;
    assert_eq!(rt; out.as_slice(), bytes.as_slice());
    let back = decode::<Dictionary>(alloc, &bytes, ColType::Text, 3)?;
    assert!(rt; back.as_slice() == texts.as_slice());
    Ok(())
}

fn fault(alloc: Global, count: usize, bytes: &[u8]) -> Option<u64> {
    match decode::<Dictionary>(alloc, bytes, ColType::Text, count) {
        Err(SegError::Malformed { at }) => Some(at),
        _ => None,
    }
}

#[test]
fn dictionary_faults(rt: HostRuntime) {
    let alloc = rt.alloc();
    let body = [2, 0, 1, 0, 97, 1, 0, 98, 1, 2, 9];
    assert_eq!(rt; fault(alloc, 3, &body[..1]), Some(0));
    assert_eq!(rt; fault(alloc, 3, &body[..4]), Some(4));
    assert_eq!(rt; fault(alloc, 3, &body[..9]), Some(9));
    assert_eq!(rt; fault(alloc, 3, &body), Some(10));
    assert_eq!(rt; fault(alloc, 0, &body), Some(0));
    assert_eq!(rt; fault(alloc, 3, &[0, 0, 0, 0]), Some(0));
    assert_eq!(rt; fault(alloc, 3, &[2, 0, 1, 0, 97, 1, 0, 97, 1, 2]), Some(5));
    assert_eq!(rt; fault(alloc, 3, &[2, 0, 1, 0, 97, 1, 0, 98, 2, 4]), Some(8));
    assert_eq!(rt; fault(alloc, 3, &[2, 0, 1, 0, 97, 1, 0, 98, 1, 5]), Some(9));
    assert_eq!(rt; fault(alloc, 3, &[2, 0, 1, 0, 97, 1, 0, 98, 1, 0]), Some(9));
    assert_eq!(rt;
        fault(alloc, 3, &[2, 0, 1, 0, 97, 1, 0, 98, 1, 10]),
        Some(9)
    );
}
