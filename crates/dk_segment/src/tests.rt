//! Segments of each encoding that are spelled out, the choice among them, and the place of the first fault.
use crate::{
    Encoding, analyse, decode, decode_cells, encode, encode_cells, is_column, is_column_of,
};
use dk_bytes::SegError;
use dk_columns::Cells;
use dk_rows::Cell;
use dk_values::{ColType, List, Value};
use std::process::Abort;
use std::test::Fail;

fn text(rt: &impl AllocGlobal, bytes: &[u8]) -> Result<Value, Fail> {
    Ok(Value::Text(List::from_vec(Vec::from_slice(rt.alloc(), bytes)?)))
}

/// The bytes are read into a column of the type that had a value before, and the column has these values then.
fn fills_column<R: AllocGlobal + Abort>(
    rt: &R,
    values: &[Value],
    kind: ColType,
    bytes: &[u8],
) -> Result<Cells, Fail> {
    let mut cells = Cells::new(rt.alloc(), kind);
    cells.push(&Cell::Null)?;
    decode_cells(rt.alloc(), bytes, &mut cells)?;
    let read = cells.to_values(rt.alloc())?;
    assert_eq!(rt; read.as_slice(), values);
    Ok(cells)
}

/// The column is written as these bytes.
fn is_spelled<R: AllocGlobal + Abort>(rt: &R, cells: &Cells, bytes: &[u8]) -> Result<(), Fail> {
    let holds = is_column_of(rt.alloc(), cells)?;
    assert!(rt; holds);
    let spelled = encode_cells(rt.alloc(), cells)?;
    assert_eq!(rt; spelled.as_slice(), bytes);
    Ok(())
}

/// The values are written as these bytes, and read back.
fn comes_back<R: AllocGlobal + Abort>(
    rt: &R,
    values: &[Value],
    kind: ColType,
    bytes: &[u8],
) -> Result<(), Fail> {
    assert!(rt; is_column(values, kind));
    let spelled = encode(rt.alloc(), values, kind)?;
    assert_eq!(rt; spelled.as_slice(), bytes);
    let back = decode(rt.alloc(), bytes, kind)?;
    assert_eq!(rt; back.as_slice(), values);
    let cells = fills_column(rt, values, kind, bytes)?;
    is_spelled(rt, &cells, bytes)
}

/// The values take so many bytes, and are read back.
fn has_len<R: AllocGlobal + Abort>(
    rt: &R,
    values: &[Value],
    kind: ColType,
    len: usize,
) -> Result<(), Fail> {
    assert!(rt; is_column(values, kind));
    let spelled = encode(rt.alloc(), values, kind)?;
    assert_eq!(rt; spelled.len(), len);
    let back = decode(rt.alloc(), spelled.as_slice(), kind)?;
    assert_eq!(rt; back.as_slice(), values);
    let cells = fills_column(rt, values, kind, spelled.as_slice())?;
    is_spelled(rt, &cells, spelled.as_slice())
}

#[test]
fn numbers(rt: HostRuntime) -> Result<(), Fail> {
    let same = [Value::Big(5), Value::Big(5), Value::Big(5)];
    comes_back(
        &rt,
        &same,
        ColType::Big,
        &[1, 0, 3, 0, 0, 0, 5, 0, 0, 0, 0, 0, 0, 0],
    )?;
    let near = [Value::Big(10), Value::Null, Value::Big(13)];
    comes_back(
        &rt,
        &near,
        ColType::Big,
        &[3, 1, 3, 0, 0, 0, 5, 10, 0, 0, 0, 0, 0, 0, 0, 2, 12],
    )?;
    let nulls = [Value::Null, Value::Null, Value::Null];
    comes_back(&rt, &nulls, ColType::Int, &[0, 1, 3, 0, 0, 0, 0])?;
    let ends = [Value::Int(i32::MIN), Value::Int(i32::MAX)];
    comes_back(
        &rt,
        &ends,
        ColType::Int,
        &[0, 0, 2, 0, 0, 0, 0, 0, 0, 128, 255, 255, 255, 127],
    )?;
    let truths = [
        Value::Null,
        Value::Bool(true),
        Value::Bool(false),
        Value::Null,
    ];
    comes_back(&rt, &truths, ColType::Bool, &[0, 1, 4, 0, 0, 0, 6, 1, 0])?;
    comes_back(
        &rt,
        &[Value::Big(7)],
        ColType::Big,
        &[1, 0, 1, 0, 0, 0, 7, 0, 0, 0, 0, 0, 0, 0],
    )
}

#[test]
fn runs(rt: HostRuntime) -> Result<(), Fail> {
    let low = i64::MIN;
    let high = i64::MAX;
    let values = [
        Value::Big(low),
        Value::Big(low),
        Value::Big(low),
        Value::Big(high),
        Value::Big(high),
        Value::Big(high),
    ];
    let bytes = [
        2, 0, 6, 0, 0, 0, 2, 0, 0, 0, 0, 0, 0, 0, 0, 0, 0, 128, 3, 0, 255, 255, 255, 255, 255, 255,
        255, 127, 3, 0,
    ];
    comes_back(&rt, &values, ColType::Big, &bytes)
}

#[test]
fn texts(rt: HostRuntime) -> Result<(), Fail> {
    let few = [text(&rt, b"a")?, text(&rt, b"b")?, text(&rt, b"a")?];
    comes_back(
        &rt,
        &few,
        ColType::Text,
        &[0, 0, 3, 0, 0, 0, 1, 0, 97, 1, 0, 98, 1, 0, 97],
    )?;
    let many = [
        text(&rt, b"x")?,
        text(&rt, b"x")?,
        text(&rt, b"x")?,
        text(&rt, b"y")?,
    ];
    let bytes = [4, 0, 4, 0, 0, 0, 2, 0, 1, 0, 120, 1, 0, 121, 1, 8];
    comes_back(&rt, &many, ColType::Text, &bytes)?;
    comes_back(
        &rt,
        &[text(&rt, b"")?],
        ColType::Text,
        &[1, 0, 1, 0, 0, 0, 0, 0],
    )?;
    let long = vec![in rt.alloc(); 97; 65535]?;
    has_len(&rt, &[text(&rt, &long)?, Value::Null], ColType::Text, 65544)
}

#[test]
fn widths(rt: HostRuntime) -> Result<(), Fail> {
    let table: [(i64, usize); 5] = [
        (1, 271),
        (127, 1807),
        (255, 2063),
        (2147483647, 7951),
        (8589934591, 8463),
    ];
    for (greatest, len) in table {
        let mut values = Vec::new(rt.alloc());
        for i in 0..1024u32 {
            values.push(Value::Big(0))?;
            values.push(Value::Big(if i % 2 == 0 { greatest } else { 0 }))?;
        }
        has_len(&rt, &values, ColType::Big, len)?;
    }
    Ok(())
}

/// So many whole numbers from 0 on take so many bytes, and are read back.
fn counts_up<R: AllocGlobal + Abort>(rt: &R, count: i32, len: usize) -> Result<(), Fail> {
    let mut values = Vec::new(rt.alloc());
    for number in 0..count {
        values.push(Value::Int(number))?;
    }
    has_len(rt, &values, ColType::Int, len)
}

#[test]
fn counts(rt: HostRuntime) -> Result<(), Fail> {
    for (count, len) in [(1, 10), (2, 14), (2047, 2830), (2048, 2831)] {
        counts_up(&rt, count, len)?;
    }
    let mut values = Vec::new(rt.alloc());
    assert!(rt; !is_column(&values, ColType::Int));
    for _ in 0..2049u32 {
        values.push(Value::Null)?;
    }
    assert!(rt; !is_column(&values, ColType::Int));
    Ok(())
}

#[test]
fn nulls(rt: HostRuntime) -> Result<(), Fail> {
    comes_back(
        &rt,
        &[Value::Null, Value::Int(7)],
        ColType::Int,
        &[1, 1, 2, 0, 0, 0, 2, 7, 0, 0, 0],
    )?;
    comes_back(
        &rt,
        &[Value::Int(7), Value::Null],
        ColType::Int,
        &[1, 1, 2, 0, 0, 0, 1, 7, 0, 0, 0],
    )?;
    let texts = [
        Value::Null,
        text(&rt, b"ab")?,
        Value::Null,
        text(&rt, b"")?,
        text(&rt, b"ab")?,
    ];
    // A dictionary and the plain texts take ten bytes each, and the dictionary goes first.
    comes_back(
        &rt,
        &texts,
        ColType::Text,
        &[4, 1, 5, 0, 0, 0, 26, 2, 0, 2, 0, 97, 98, 0, 0, 1, 2],
    )
}

/// The bytes are read as these values, which may also be written otherwise.
fn stands_for<R: AllocGlobal + Abort>(rt: &R, bytes: &[u8], values: &[Value]) -> Result<(), Fail> {
    let read = decode(rt.alloc(), bytes, ColType::Big)?;
    assert_eq!(rt; read.as_slice(), values);
    Ok(())
}

#[test]
fn ends_of_widths(rt: HostRuntime) -> Result<(), Fail> {
    stands_for(
        &rt,
        &[3, 0, 2, 0, 0, 0, 5, 0, 0, 0, 0, 0, 0, 0, 0],
        &[Value::Big(5), Value::Big(5)],
    )?;
    let ends = [Value::Big(i64::MIN), Value::Big(i64::MAX)];
    let packed = [
        3, 0, 2, 0, 0, 0, 0, 0, 0, 0, 0, 0, 0, 128, 64, 0, 0, 0, 0, 0, 0, 0, 0, 255, 255, 255, 255,
        255, 255, 255, 255,
    ];
    stands_for(&rt, &packed, &ends)?;
    let plain = [
        0, 0, 2, 0, 0, 0, 0, 0, 0, 0, 0, 0, 0, 128, 255, 255, 255, 255, 255, 255, 255, 127,
    ];
    comes_back(&rt, &ends, ColType::Big, &plain)
}

fn is_best(rt: &impl Abort, values: &[Value], kind: ColType, encoding: Encoding) {
    assert!(rt; is_column(values, kind));
    assert_eq!(rt; analyse(values, kind), encoding);
}

#[test]
fn best_encodings(rt: HostRuntime) -> Result<(), Fail> {
    let near = [Value::Big(10), Value::Null, Value::Big(13)];
    is_best(&rt, &near, ColType::Big, Encoding::Packed);
    is_best(&rt, &[Value::Null], ColType::Big, Encoding::Plain);
    let one = [Value::Null, Value::Bool(true)];
    is_best(&rt, &one, ColType::Bool, Encoding::Constant);
    let many = [
        text(&rt, b"x")?,
        text(&rt, b"x")?,
        Value::Null,
        text(&rt, b"x")?,
        text(&rt, b"y")?,
    ];
    is_best(&rt, &many, ColType::Text, Encoding::Dictionary);
    Ok(())
}

#[test]
fn first_faults(rt: HostRuntime) {
    let faults: [(&[u8], u64); 13] = [
        (&[], 0),
        (&[5, 0, 1, 0, 0, 0, 0], 0),
        (&[4, 0, 1, 0, 0, 0, 0], 0),
        (&[1, 2, 3, 0, 0, 0, 5, 0, 0, 0, 0, 0, 0, 0], 1),
        (&[1, 0, 0, 0, 0, 0, 5, 0, 0, 0, 0, 0, 0, 0], 2),
        (&[1, 0, 1, 8, 0, 0, 5, 0, 0, 0, 0, 0, 0, 0], 2),
        (&[1, 0, 3, 0, 0, 0, 5, 0, 0, 0, 0, 0, 0], 6),
        (&[1, 0, 3, 0, 0, 0, 5, 0, 0, 0, 0, 0, 0, 0, 9], 14),
        (&[1, 1, 3, 0, 0, 0], 6),
        (&[1, 1, 3, 0, 0, 0, 7, 5, 0, 0, 0, 0, 0, 0, 0], 6),
        (&[1, 1, 3, 0, 0, 0, 9, 5, 0, 0, 0, 0, 0, 0, 0], 6),
        (&[1, 1, 3, 0, 0, 0, 0, 5, 0, 0, 0, 0, 0, 0, 0], 6),
        (&[3, 1, 3, 0, 0, 0, 5, 10, 0, 0, 0, 0, 0, 0, 0, 2, 28], 16),
    ];
    for (bytes, at) in faults {
        let read = decode(rt.alloc(), bytes, ColType::Big);
        assert!(rt; matches!(read, Err(SegError::Malformed { at: place }) if place == at));
        let mut cells = Cells::new(rt.alloc(), ColType::Big);
        let filled = decode_cells(rt.alloc(), bytes, &mut cells);
        assert!(rt; matches!(filled, Err(SegError::Malformed { at: place }) if place == at));
    }
}

/// The bytes are refused within them, or stand for a column that is written as these bytes or in another encoding.
fn is_lawful<R: AllocGlobal + Abort>(rt: &R, bytes: &[u8], kind: ColType) -> Result<(), Fail> {
    let values = match decode(rt.alloc(), bytes, kind) {
        Ok(values) => {
            let _cells = fills_column(rt, &values, kind, bytes)?;
            values
        }
        Err(error) => {
            assert!(rt; matches!(error, SegError::Malformed { at } if at <= bytes.len() as u64));
            return Ok(());
        }
    };
    assert!(rt; is_column(&values, kind));
    let spelled = encode(rt.alloc(), &values, kind)?;
    assert!(rt; spelled.as_slice() == bytes || spelled.first() != bytes.first());
    Ok(())
}

/// Cut anywhere the bytes are refused; with any byte changed they are lawful.
fn stays_lawful<R: AllocGlobal + Abort>(rt: &R, bytes: &[u8], kind: ColType) -> Result<(), Fail> {
    for end in 0..bytes.len() {
        assert!(rt;
            matches!(decode(rt.alloc(), &bytes[..end], kind), Err(SegError::Malformed { at }) if at <= end as u64)
        );
    }
    for place in 0..bytes.len() {
        for turned in 0..256u32 {
            let mut changed = Vec::from_slice(rt.alloc(), bytes)?;
            if let Some(byte) = changed.get_mut(place) {
                *byte ^= turned as u8;
            }
            is_lawful(rt, &changed, kind)?;
        }
    }
    Ok(())
}

#[test]
fn changed_bytes(rt: HostRuntime) -> Result<(), Fail> {
    stays_lawful(
        &rt,
        &[1, 0, 3, 0, 0, 0, 5, 0, 0, 0, 0, 0, 0, 0],
        ColType::Big,
    )?;
    stays_lawful(
        &rt,
        &[3, 1, 3, 0, 0, 0, 5, 10, 0, 0, 0, 0, 0, 0, 0, 2, 12],
        ColType::Big,
    )?;
    stays_lawful(
        &rt,
        &[2, 0, 3, 0, 0, 0, 2, 0, 0, 0, 1, 2, 0, 0, 1, 0],
        ColType::Bool,
    )?;
    stays_lawful(
        &rt,
        &[0, 0, 3, 0, 0, 0, 1, 0, 97, 1, 0, 98, 1, 0, 97],
        ColType::Text,
    )?;
    stays_lawful(
        &rt,
        &[4, 0, 4, 0, 0, 0, 2, 0, 1, 0, 120, 1, 0, 121, 1, 8],
        ColType::Text,
    )?;
    stays_lawful(
        &rt,
        &[0, 1, 5, 0, 0, 0, 26, 2, 0, 97, 98, 0, 0, 2, 0, 97, 98],
        ColType::Text,
    )
}
