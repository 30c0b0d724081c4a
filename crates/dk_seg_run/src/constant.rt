//! The body is the one value that all values are; nulls are passed over.

ghost use Rattle.std.specs.Prelude.{◌≡◌, ◌++◌, ◌↔◌, List, length, Ok, IsSome, IsTrue, IfSome, IfOk, OnOk, OnErr};
ghost use Rattle.std.specs.List.{AllByRecursion};
ghost use Rattle.dk_bytes.specs.PlainValue.{present};

use dk_bytes::{Cursor, SegError, is_same, plain_len, put_value, read_value, split_present};
use dk_columns::Cells;
use dk_rows::Cell;
use dk_seg_body::Body;
use dk_values::{ColType, OutOfMemory, Value};
use std::alloc::Global;

/// One value for all.
pub struct Constant;

impl Body for Constant {
    ghost use Rattle.dk_seg_run.specs.Constant.{constant_grammar};

    ghost grammar = { constant_grammar };

    fn size(values: &[Value], kind: ColType) -> Option<usize> {
        let (first, rest) = split_present(values)?;
        if !are_all(rest, first) {
            return None;
        }
        plain_len(first, kind)
    }

    fn encode(values: &[Value], kind: ColType, out: &mut Vec<u8>) -> Result<(), OutOfMemory> {
        let Some((first, _)) = split_present(values) else {
            unreachable!();
        };
        put_value(out, first, kind)
    }

    #[tactic(auto, unfolding(crate::specs::Constant::constant_at), using(dk_seg_body::proofs::KindLemmas::lent_of_kind))]
    fn fill(alloc: Global, bytes: &[u8], count: usize, cells: &mut Cells) -> Result<(), SegError> {
        if count == 0 {
            return Err(SegError::Malformed { at: 0 });
        }
        let mut cursor = Cursor::new(bytes);
        let value = read_value(alloc, &mut cursor, cells.kind())?;
        cursor.finish()?;
        cells.push_copies(&Cell::of(&value), count)?;
        Ok(())
    }

    fn read(alloc: Global, bytes: &[u8], count: usize, cells: &mut Cells) -> Result<(), SegError> {
        Self::fill(alloc, bytes, count, cells)
    }
}

/// Whether all that are present are that one.
fn are_all(values: &[Value], first: &Value) -> bool
    ensures { IsTrue result ↔ AllByRecursion (λ other. other ≡ first.now) (present values.now) }
{
    let mut left = values;
    'values: while let Some((value, rest)) = split_present(left) {
        if !is_same(value, first) {
            return false;
        }
        left = rest;
    }
    true
}
