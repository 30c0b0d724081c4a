//! Parts of a chain that come back, and the places of their faults.
use crate::{NO_BLOCK, PART_BYTES, PAYLOAD_BYTES, read_part, write_part};
use dk_bytes::{put_u32, put_u64};
use std::alloc::Global;
use std::process::Abort;
use std::test::*;

/// A payload that names this next block and says so many bytes, in which so many are 7 and the others zero.
fn payload_of(alloc: Global, next: u64, used: u32, held: usize) -> Result<Vec<u8>, Fail> {
    let mut payload = Vec::with_capacity(alloc, PAYLOAD_BYTES)?;
    put_u64(&mut payload, next)?;
    put_u32(&mut payload, used)?;
    for _ in 0..held {
        payload.push(7)?;
    }
    for _ in held..PART_BYTES {
        payload.push(0)?;
    }
    Ok(payload)
}

/// The next block and the number of bytes, or how many bytes are joined before the fault.
fn read(payload: &[u8]) -> Result<(Option<u64>, usize), u64> {
    if payload.len() != PAYLOAD_BYTES {
        return Err(u64::MAX);
    }
    match read_part(payload) {
        Ok(part) => Ok((part.next, part.bytes.len())),
        Err(fault) => Err(fault.joined),
    }
}

/// Writes again what a payload holds, over other bytes.
fn written_again(alloc: Global, payload: &[u8]) -> Result<Vec<u8>, Fail> {
    let mut again = vec![in alloc; 9; PAYLOAD_BYTES]?;
    if payload.len() == PAYLOAD_BYTES {
        if let Ok(part) = read_part(payload) {
            write_part(again.as_mut_slice(), part.next, part.bytes);
        }
    }
    Ok(again)
}

/// A payload is read so, and written again where it holds a part.
fn is_read<R: AllocGlobal + Abort>(
    rt: &R,
    payload: &[u8],
    want: Result<(Option<u64>, usize), u64>,
) -> Result<(), Fail> {
    assert!(rt; read(payload) == want);
    let again = written_again(rt.alloc(), payload)?;
    assert!(rt; want.is_err() || again.as_slice() == payload);
    Ok(())
}

#[test]
fn parts_come_back(rt: HostRuntime) -> Result<(), Fail> {
    let whole = PART_BYTES;
    let cases: [(u64, u32, usize, Result<(Option<u64>, usize), u64>); 9] = [
        (NO_BLOCK, 0, 0, Err(0)),
        (NO_BLOCK, 1, 1, Ok((None, 1))),
        (NO_BLOCK, 262_124, whole, Ok((None, whole))),
        (NO_BLOCK, 262_125, whole, Err(0)),
        (5, 262_124, whole, Ok((Some(5), whole))),
        (0, 262_124, whole, Ok((Some(0), whole))),
        (5, 262_123, whole, Err(0)),
        (NO_BLOCK, 1, 2, Err(1)),
        (NO_BLOCK, 262_123, whole, Err(262_123)),
    ];
    for (next, used, held, want) in cases {
        let payload = payload_of(rt.alloc(), next, used, held)?;
        is_read(&rt, &payload, want)?;
    }
    Ok(())
}
