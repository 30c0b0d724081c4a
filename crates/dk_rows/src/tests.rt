//! That rows in a few buffers stay those of a plain list, whatever changes them, and texts of each length.
ghost use Rattle.std.specs.Prelude.{◌<◌};

use crate::{Cell, Rows};
use dk_values::{List, OutOfMemory, Row, TryCopy, Value};
use std::alloc::Global;
use std::test::Fail;

/// Numbers that look random: a linear congruence, of which the upper bits are drawn.
#[derive(Drop)]
struct Draws {
    state: u64,
}

impl Draws {
    fn below(&mut self, n: u64) -> u64
        requires { 0 < n }
        ensures { result < n }
    {
        self.state = self
            .state
            .wrapping_mul(6_364_136_223_846_793_005)
            .wrapping_add(1_442_695_040_888_963_407);
        (self.state >> 33) % n
    }
}

fn text(alloc: Global, len: u64) -> Result<Value, OutOfMemory> {
    let mut bytes = Vec::new(alloc);
    for i in 0..len {
        bytes.push((i % 251) as u8)?;
    }
    Ok(Value::Text(List::from_vec(bytes)))
}

fn draw_value(alloc: Global, draws: &mut Draws) -> Result<Value, OutOfMemory> {
    match draws.below(7) {
        0 => Ok(Value::Null),
        1 => Ok(Value::Bool(draws.below(2) == 1)),
        2 => Ok(Value::Int((draws.below(1 << 32) as u32).cast_signed())),
        3 => Ok(Value::Big(draws.state.cast_signed())),
        4 => Ok(Value::Huge(-(draws.state as i128))),
        _ => {
            let len = draws.below(9);
            text(alloc, len)
        }
    }
}

fn draw_row(alloc: Global, draws: &mut Draws) -> Result<Row, OutOfMemory> {
    let mut row = List::new(alloc);
    for _ in 0..draws.below(5) {
        row.push(draw_value(alloc, draws)?)?;
    }
    Ok(row)
}

/// The front of both.
fn cut(rows: &mut Rows, plain: List<Row>, n: usize) -> List<Row> {
    rows.truncate(n);
    let mut plain = plain.into_vec();
    plain.truncate(n);
    List::from_vec(plain)
}

/// Both twice, one behind the other.
fn double(rows: &mut Rows, mut plain: List<Row>) -> Result<List<Row>, OutOfMemory> {
    rows.append(rows.copy()?)?;
    plain.append(plain.copy()?)?;
    Ok(plain)
}

/// The first row of the rows once more behind both, where there is one.
fn repeat_first(
    alloc: Global,
    rows: &mut Rows,
    mut plain: List<Row>,
) -> Result<List<Row>, OutOfMemory> {
    let mut more = Rows::new(alloc);
    if !rows.is_empty() {
        more.push_copy(&rows.get(0))?;
    }
    plain.append(more.to_list(alloc)?)?;
    rows.append(more)?;
    Ok(plain)
}

/// The same row at the end of both.
fn push(rows: &mut Rows, mut plain: List<Row>, row: Row) -> Result<List<Row>, OutOfMemory> {
    plain.push(row.copy()?)?;
    rows.push(row)?;
    Ok(plain)
}

/// The same change of both.
fn change(
    alloc: Global,
    draws: &mut Draws,
    rows: &mut Rows,
    plain: List<Row>,
) -> Result<List<Row>, OutOfMemory> {
    match draws.below(8) {
        0 => Ok(cut(rows, plain, draws.below(12) as usize)),
        1 => double(rows, plain),
        2 => repeat_first(alloc, rows, plain),
        _ => push(rows, plain, draw_row(alloc, draws)?),
    }
}

fn agree(alloc: Global, rows: &Rows, plain: &List<Row>) -> Result<bool, OutOfMemory> {
    if rows.len() != plain.len() || *rows != Rows::from_list(alloc, plain)? {
        return Ok(false);
    }
    for (row, expected) in rows.iter().zip(plain.as_slice()) {
        if !row.is_row(expected.as_slice()) {
            return Ok(false);
        }
    }
    Ok(rows.to_list(alloc)? == *plain)
}

fn sequence_agrees(alloc: Global, draws: &mut Draws) -> Result<bool, OutOfMemory> {
    let mut rows = Rows::new(alloc);
    let mut plain = List::new(alloc);
    for _ in 0..draws.below(12) {
        plain = change(alloc, draws, &mut rows, plain)?;
    }
    agree(alloc, &rows, &plain)
}

/// Whether so many sequences of changes leave the rows and a plain list the same.
fn all_agree(alloc: Global, sequences: u32) -> Result<bool, OutOfMemory> {
    let mut draws = Draws { state: 7 };
    for _ in 0..sequences {
        if !sequence_agrees(alloc, &mut draws)? {
            return Ok(false);
        }
    }
    Ok(true)
}

#[test]
fn two_thousand_sequences_of_changes_are_those_of_a_plain_list(
    rt: HostRuntime,
) -> Result<(), Fail> {
    assert!(rt; all_agree(rt.alloc(), 2_000)?);
    Ok(())
}

/// The length of the text that comes back from rows of one text each.
fn stored_len(alloc: Global, rows: u64, len: u64) -> Result<Option<usize>, OutOfMemory> {
    let mut stored = Rows::new(alloc);
    for _ in 0..rows {
        stored.push(List::from_vec(vec![in alloc; text(alloc, len)?, Value::Null]?))?;
    }
    let last = stored.len().saturating_sub(1);
    if stored.is_empty() || stored.get(last).is_empty() {
        return Ok(None);
    }
    match stored.get(last).get(0) {
        Cell::Text(bytes) => Ok(Some(bytes.len())),
        _ => Ok(None),
    }
}

#[test]
fn texts_may_be_empty_or_long(rt: HostRuntime) -> Result<(), Fail> {
    let alloc = rt.alloc();
    assert_eq!(rt; stored_len(alloc, 0, 1)?, None);
    assert_eq!(rt; stored_len(alloc, 64, 0)?, Some(0));
    assert_eq!(rt; stored_len(alloc, 3, 65_535)?, Some(65_535));
    assert_eq!(rt; stored_len(alloc, 2_048, 1)?, Some(1));
    Ok(())
}
