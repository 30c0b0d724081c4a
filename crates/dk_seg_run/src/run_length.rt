//! The body has, behind their number, the runs of equal neighbours: the value, and how often it stands. Nulls are
//! passed over.

ghost use Rattle.std.specs.Prelude.{◌≡◌, ◌+◌, ◌++◌, ◌<◌, ◌^◌, ◌≤◌, ◌↔◌, ℕ, List, ◌∷◌, Option, None, length, take, drop, Ok, IsSome, IsOk, IsTrue, IfSome, IfOk, OnOk, OnErr, vec_len};
ghost use Rattle.std.specs.List.{All, AllByRecursion, flat_map, prefix_len};
ghost use Rattle.dk_values.specs.declared.value.Value.{Value};
ghost use Rattle.dk_bytes.specs.Reading.{Gives};
ghost use Rattle.dk_bytes.specs.PlainValue.{present};
ghost use Rattle.dk_columns.specs.Columns.{IsOfKind};
ghost use Rattle.dk_seg_run.specs.RunLength.{passes, IsRun, HasRuns, run_of, runs_of, run_bytes, run_length_bytes, run_length_at, run_at, runs_at, expanded, last_of, repeats};

use dk_bytes::{
    Cursor, SegError, cut_if_failed, is_present, is_same, plain_len, present_count, put_u16,
    put_u32, put_value, read_value, split_present,
};
use dk_columns::Cells;
use dk_rows::Cell;
use dk_seg_body::Body;
use dk_values::{ColType, OutOfMemory, Value};
use std::alloc::Global;

/// A value, and how often it stands one after the other.
#[derive(Debug, Drop)]
pub struct Run {
    pub value: Value,
    pub count: u16,
}

/// Equal neighbours, gathered.
pub struct RunLength;

impl Body for RunLength {
    ghost use Rattle.dk_seg_run.specs.RunLength.{run_length_grammar};

    ghost grammar = { run_length_grammar };

    fn size(values: &[Value], kind: ColType) -> Option<usize> {
        if present_count(values) == 0 {
            return None;
        }
        let len = runs_len(values, kind)?;
        Some(4 + len)
    }

    fn encode(values: &[Value], kind: ColType, out: &mut Vec<u8>) -> Result<(), OutOfMemory> {
        let start = out.len();
        let put = put_body(values, kind, out);
        cut_if_failed(out, start, put)
    }

    #[tactic(auto, unfolding(crate::specs::RunLength::run_length_at), using(crate::proofs::RunBodyLemmas::all_of_kind))]
    fn fill(alloc: Global, bytes: &[u8], count: usize, cells: &mut Cells) -> Result<(), SegError> {
        let mut cursor = Cursor::new(bytes);
        let run_count = cursor.u32()?;
        if run_count == 0 {
            return Err(SegError::Malformed { at: 0 });
        }
        // What is left are bytes, and so the values of the runs are of the type.
        let _left = cursor.left();
        let runs = read_runs(alloc, &mut cursor, cells.kind(), run_count)?;
        if total(runs.as_slice()) != count as u64 {
            return Err(SegError::Malformed {
                at: cursor.at() - 2,
            });
        }
        cursor.finish()?;
        expand(runs.as_slice(), cells)?;
        Ok(())
    }

    fn read(alloc: Global, bytes: &[u8], count: usize, cells: &mut Cells) -> Result<(), SegError> {
        Self::fill(alloc, bytes, count, cells)
    }
}

/// How many values at the front are null or this one.
fn front_len(first: &Value, values: &[Value]) -> usize
    ensures front { result ≡ prefix_len (passes first.now) values.now }
    ensures within { result ≤ length values.now }
{
    values
        .iter()
        .take_while(|value| !is_present(value) || is_same(first, value))
        .count()
}

/// How often the first value stands before another one, and the values from that one on.
#[tactic(auto, using(crate::proofs::RunLemmas::first_run))]
fn split_run<'a>(first: &Value, rest: &'a [Value]) -> (usize, &'a [Value])
    ensures run { runs_of (first.now ∷ present rest.now) ≡ run_of first.now result.0 ∷ runs_of (present result.1.now) }
    ensures within { result.0 + length result.1.now ≤ length rest.now + 1 }
    ensures some { 0 < result.0 }
{
    let (front, behind) = rest.split_at(front_len(first, rest));
    (present_count(front) + 1, behind)
}

/// How long the runs behind their number are.
fn runs_len(values: &[Value], kind: ColType) -> Option<usize>
    ensures held { IsSome result
        ↔ (AllByRecursion (IsRun kind) (runs_of (present values.now))
        × (length (runs_of (present values.now)) < 2 ^ 32)) }
    ensures length { IfSome result (λ n. n ≡ length (flat_map run_bytes (runs_of (present values.now)))) }
    ensures small { IfSome result (λ n. n < 2 ^ 63) }
{
    let mut runs = 0u32;
    let mut len = 0;
    let mut left = values;
    'runs: while let Some((first, rest)) = split_present(left) {
        let (count, behind) = split_run(first, rest);
        if count > u16::MAX as usize || runs == u32::MAX {
            return None;
        }
        runs += 1;
        len += plain_len(first, kind)? + 2;
        left = behind;
    }
    Some(len)
}

/// How many runs there are.
fn run_count(values: &[Value]) -> usize
    ensures { result ≡ length (runs_of (present values.now)) }
{
    let mut runs = 0;
    let mut left = values;
    'runs: while let Some((first, rest)) = split_present(left) {
        let (count, behind) = split_run(first, rest);
        runs += 1;
        left = behind;
    }
    runs
}

/// Appends the body. Without memory a part of it may have been appended.
fn put_body(values: &[Value], kind: ColType, out: &mut Vec<u8>) -> Result<(), OutOfMemory>
    requires { HasRuns kind (present values.now) }
    ensures ok { OnOk result (out.new.items ≡ out.old.items ++ run_length_bytes (present values.now)) }
    ensures front { take (vec_len out.old) out.new.items ≡ out.old.items }
{
    put_u32(out, run_count(values) as u32)?;
    put_runs(values, kind, out)
}

/// Appends the runs. Without memory some of them may have been appended.
fn put_runs(values: &[Value], kind: ColType, out: &mut Vec<u8>) -> Result<(), OutOfMemory>
    requires { AllByRecursion (IsRun kind) (runs_of (present values.now)) }
    ensures ok { OnOk result (out.new.items ≡ out.old.items ++ flat_map run_bytes (runs_of (present values.now))) }
    ensures front { take (vec_len out.old) out.new.items ≡ out.old.items }
{
    let mut left = values;
    'runs: while let Some((first, rest)) = split_present(left) {
        let (count, behind) = split_run(first, rest);
        put_value(out, first, kind)?;
        put_u16(out, count as u16)?;
        left = behind;
    }
    Ok(())
}

/// So many runs, one behind the other.
fn read_runs(
    alloc: Global,
    cursor: &mut Cursor,
    kind: ColType,
    run_count: u32,
) -> Result<Vec<Run>, SegError>
    ensures reads { Gives (λ runs. (runs.items, cursor.new)) result (runs_at kind None run_count cursor.old) }
    ensures behind { IsOk result → 0 < run_count → 2 ≤ cursor.new.at }
    ensures few { IfOk result (λ runs. vec_len runs < 2 ^ 32) }
{
    let mut runs = Vec::new(alloc);
    'runs: for _ in 0..run_count {
        let run = read_run(alloc, cursor, kind, runs.as_slice())?;
        runs.push(run)?;
    }
    Ok(runs)
}

/// The run that stands next, behind these.
#[tactic(auto, unfolding(crate::specs::RunLength::run_at))]
fn read_run(
    alloc: Global,
    cursor: &mut Cursor,
    kind: ColType,
    earlier: &[Run],
) -> Result<Run, SegError>
    ensures reads { Gives (λ run. (run, cursor.new)) result (run_at kind (last_of earlier.now) cursor.old) }
    ensures behind { IsOk result → 2 ≤ cursor.new.at }
{
    let at = cursor.at();
    let value = read_value(alloc, cursor, kind)?;
    if is_repeat(earlier, &value) {
        return Err(SegError::Malformed { at });
    }
    let at = cursor.at();
    let count = cursor.u16()?;
    if count == 0 {
        return Err(SegError::Malformed { at });
    }
    Ok(Run { value, count })
}

/// Whether the value is that of the last run.
fn is_repeat(earlier: &[Run], value: &Value) -> bool
    ensures { result ≡ repeats (last_of earlier.now) value.now }
{
    match earlier.last() {
        Some(run) => is_same(&run.value, value),
        None => false,
    }
}

/// How many values the runs stand for.
fn total(runs: &[Run]) -> u64
    requires { length runs.now < 2 ^ 32 }
    ensures { result ≡ length (expanded runs.now) }
{
    let mut sum = 0;
    'runs: for run in runs {
        sum += run.count as u64;
    }
    sum
}

/// Adds the values that the runs stand for.
fn expand(runs: &[Run], cells: &mut Cells) -> Result<(), OutOfMemory>
    requires { All (λ run. IsOfKind cells.old.kind run.value) runs.now }
    ensures kind { cells.new.kind ≡ cells.old.kind }
    ensures values { OnOk result (cells.new.values ≡ cells.old.values ++ expanded runs.now) }
{
    'runs: for run in runs {
        cells.push_copies(&Cell::of(&run.value), run.count as usize)?;
    }
    Ok(())
}
