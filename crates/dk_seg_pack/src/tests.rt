//! Packed numbers and bodies that are spelled out, and the place of the first fault of others.
use crate::packed::Packed;
use dk_bytes::SegError;
use dk_seg_body::{Body, decode};
use dk_values::{ColType, Value};
use std::alloc::Global;
use std::process::Abort;
use std::test::*;

fn check(
    rt: &impl Abort,
    alloc: Global,
    kind: ColType,
    values: &[Value],
    bytes: &[u8],
) -> Result<(), Fail> {
    let mut out = Vec::new(alloc);
    assert_eq!(rt; Packed::size(values, kind), Some(bytes.len()));
    Packed::encode(values, kind, &mut out)?;
    assert_eq!(rt; out.as_slice(), bytes);
    let back = decode::<Packed>(alloc, bytes, kind, values.len())?;
    assert!(rt; back.as_slice() == values);
    Ok(())
}

#[test]
fn bodies(rt: HostRuntime) -> Result<(), Fail> {
    let alloc = rt.alloc();
    check(
        &rt,
        alloc,
        ColType::Big,
        &[Value::Big(10), Value::Big(13)],
        &[10, 0, 0, 0, 0, 0, 0, 0, 2, 12],
    )?;
    check(
        &rt,
        alloc,
        ColType::Big,
        &[Value::Big(5), Value::Big(5)],
        &[5, 0, 0, 0, 0, 0, 0, 0, 0],
    )?;
    check(
        &rt,
        alloc,
        ColType::Bool,
        &[Value::Bool(false), Value::Bool(true), Value::Bool(true)],
        &[0, 0, 0, 0, 0, 0, 0, 0, 1, 6],
    )?;
    check(
        &rt,
        alloc,
        ColType::Int,
        &[Value::Int(-1), Value::Int(99)],
        &[255, 255, 255, 255, 255, 255, 255, 255, 7, 0, 50],
    )
}

#[test]
fn wide_bodies(rt: HostRuntime) -> Result<(), Fail> {
    let alloc = rt.alloc();
    check(
        &rt,
        alloc,
        ColType::Int,
        &[Value::Int(0), Value::Int(1 << 30)],
        &[0, 0, 0, 0, 0, 0, 0, 0, 31, 0, 0, 0, 0, 0, 0, 0, 32],
    )?;
    check(
        &rt,
        alloc,
        ColType::Big,
        &[Value::Big(0), Value::Big(1 << 32)],
        &[0, 0, 0, 0, 0, 0, 0, 0, 33, 0, 0, 0, 0, 0, 0, 0, 0, 2],
    )?;
    check(
        &rt,
        alloc,
        ColType::Big,
        &[Value::Big(i64::MIN), Value::Big(i64::MAX)],
        &[
            0, 0, 0, 0, 0, 0, 0, 128, 64, 0, 0, 0, 0, 0, 0, 0, 0, 255, 255, 255, 255, 255, 255,
            255, 255,
        ],
    )
}

fn fault(alloc: Global, kind: ColType, count: usize, bytes: &[u8]) -> Option<u64> {
    match decode::<Packed>(alloc, bytes, kind, count) {
        Err(SegError::Malformed { at }) => Some(at),
        _ => None,
    }
}

#[test]
fn faults(rt: HostRuntime) {
    let alloc = rt.alloc();
    let body = [10, 0, 0, 0, 0, 0, 0, 0, 2, 12, 7];
    assert_eq!(rt; fault(alloc, ColType::Big, 2, &body[..7]), Some(0));
    assert_eq!(rt; fault(alloc, ColType::Big, 2, &body[..8]), Some(8));
    assert_eq!(rt; fault(alloc, ColType::Big, 2, &body[..9]), Some(9));
    assert_eq!(rt; fault(alloc, ColType::Big, 2, &body), Some(10));
    assert_eq!(rt; fault(alloc, ColType::Big, 0, &body[..10]), Some(0));
    assert_eq!(rt; fault(alloc, ColType::Text, 2, &body[..10]), Some(0));
    assert_eq!(rt; fault(alloc, ColType::Bool, 2, &body[..10]), Some(9));
    assert_eq!(rt;
        fault(alloc, ColType::Big, 2, &[10, 0, 0, 0, 0, 0, 0, 0, 65, 12]),
        Some(8)
    );
    assert_eq!(rt;
        fault(alloc, ColType::Big, 2, &[10, 0, 0, 0, 0, 0, 0, 0, 3, 24]),
        Some(9)
    );
    assert_eq!(rt;
        fault(alloc, ColType::Big, 2, &[10, 0, 0, 0, 0, 0, 0, 0, 2, 13]),
        Some(9)
    );
    assert_eq!(rt;
        fault(alloc, ColType::Big, 2, &[10, 0, 0, 0, 0, 0, 0, 0, 2, 28]),
        Some(9)
    );
}
