//! Bodies that are spelled out, read again, and the place of the first fault of each.
use crate::constant::Constant;
use crate::run_length::RunLength;
use dk_bytes::SegError;
use dk_seg_body::{Body, decode};
use dk_values::{ColType, List, Value};
use std::test::Fail;

fn text(rt: &impl AllocGlobal, bytes: &[u8]) -> Result<Value, Fail> {
    Ok(Value::Text(List::from_vec(Vec::from_slice(rt.alloc(), bytes)?)))
}

#[test]
fn one_value(rt: HostRuntime) -> Result<(), Fail> {
    let values = [Value::Big(5), Value::Big(5), Value::Big(5)];
    let mut out = Vec::new(rt.alloc());
    assert_eq!(rt; Constant::size(&values, ColType::Big), Some(8));
    assert_eq!(rt;
        Constant::size(&[Value::Big(5), Value::Big(6)], ColType::Big),
        None
    );
    assert_eq!(rt; Constant::size(&values, ColType::Int), None);
    assert_eq!(rt; Constant::size(&[], ColType::Big), None);
    if Constant::size(&values, ColType::Big).is_some() {
        Constant::encode(&values, ColType::Big, &mut out)?;
    }
    assert_eq!(rt; out.as_slice(), [5, 0, 0, 0, 0, 0, 0, 0].as_slice());
    let back = decode::<Constant>(rt.alloc(), &out, ColType::Big, 3)?;
    assert_eq!(rt; back.as_slice(), values.as_slice());
    Ok(())
}

#[test]
fn runs(rt: HostRuntime) -> Result<(), Fail> {
    let values = [text(&rt, b"ab")?, text(&rt, b"ab")?, text(&rt, b"")?];
    let body = [2, 0, 0, 0, 2, 0, 97, 98, 2, 0, 0, 0, 1, 0];
    let mut out = Vec::new(rt.alloc());
    assert_eq!(rt; RunLength::size(&values, ColType::Text), Some(14));
    assert_eq!(rt; RunLength::size(&[Value::Null], ColType::Text), None);
    if RunLength::size(&values, ColType::Text).is_some() {
        RunLength::encode(&values, ColType::Text, &mut out)?;
    }
    assert_eq!(rt; out.as_slice(), body.as_slice());
    let back = decode::<RunLength>(rt.alloc(), &body, ColType::Text, 3)?;
    assert_eq!(rt; back.as_slice(), values.as_slice());
    Ok(())
}

#[test]
fn first_faults(rt: HostRuntime) {
    let faults: [(&[u8], u64); 8] = [
        (&[0, 0, 0, 0], 0),
        (&[1, 0, 0], 0),
        (&[1, 0, 0, 0, 2, 3, 0], 4),
        (&[1, 0, 0, 0, 1, 0, 0], 5),
        (&[1, 0, 0, 0, 1, 2, 0], 5),
        (&[2, 0, 0, 0, 1, 1, 0, 1, 2, 0], 7),
        (&[2, 0, 0, 0, 1, 1, 0, 0, 1, 0], 8),
        (&[2, 0, 0, 0, 1, 1, 0, 0, 2, 0, 9], 10),
    ];
    for (bytes, at) in faults {
        let read = decode::<RunLength>(rt.alloc(), bytes, ColType::Bool, 3);
        assert!(rt; matches!(read, Err(SegError::Malformed { at: place }) if place == at));
    }
}
