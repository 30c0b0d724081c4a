//! The runs of numbers that stand for values.
ghost use Rattle.std.specs.Prelude.{◌≡◌, ◌+◌, ◌++◌, ◌∷◌, ◌≤◌, ◌<◌, ◌^◌, ℤ, if◌then◌else◌, length, take, vec_len, OnOk, OnErr};
ghost use Rattle.std.specs.List.{AllByRecursion, flat_map};
ghost use Rattle.std.specs.Ordering.{int_eq};
ghost use Rattle.dk_seg_body.specs.Numbers.{StandsFor, AllStandFor, value_for, values_for};
ghost use Rattle.dk_seg_run.specs.RunLength.{IsRun, HasRuns, run_of, runs_of, run_bytes, run_length_bytes};
ghost use Rattle.dk_seg_run.specs.NumberRuns.{run_count, runs_in, run_len, behind_run};

use dk_bytes::{cut_if_failed, put_u16, put_u32};
use dk_seg_body::put_number;
use dk_values::{ColType, OutOfMemory};

/// How many runs the numbers have.
pub fn count_runs(numbers: &[i64]) -> usize
    ensures { result ≡ runs_in numbers.now }
{
    match numbers {
        [] => 0,
        [first, rest @ ..] => count_behind(*first, rest),
    }
}

/// How many runs a number and those behind it have.
fn count_behind(first: i64, rest: &[i64]) -> usize
    requires { length rest.now < 2 ^ 63 }
    ensures { result ≡ run_count first rest.now }
{
    let mut last = first;
    let mut runs = 1usize;
    let mut left = rest;
    'numbers: while let [number, others @ ..] = left {
        runs += step_of(*number, last);
        last = *number;
        left = others;
    }
    runs
}

/// 0 behind an equal number, and else 1.
fn step_of(number: i64, last: i64) -> usize
    ensures value { result ≡ (if int_eq last number then 0 else 1) }
    ensures most { result ≤ 1 }
{
    if last == number { 0 } else { 1 }
}

/// How often the first number stands before another one, and the numbers from that one on.
fn split_run<'a>(first: &i64, rest: &'a [i64]) -> (usize, &'a [i64])
    requires { length rest.now < 2 ^ 63 }
    ensures count { result.0 ≡ run_len first.now rest.now }
    ensures behind { result.1.now ≡ behind_run first.now rest.now }
    ensures within { result.0 + length result.1.now ≤ length rest.now + 1 }
    ensures some { 0 < result.0 }
{
    let mut count = 1usize;
    let mut left = rest;
    'numbers: while let [number, others @ ..] = left {
        if *number != *first {
            return (count, left);
        }
        count += 1;
        left = others;
    }
    (count, left)
}

/// The same, where the numbers stand for values of the type: the first run of these values.
#[tactic(auto, using(crate::proofs::NumberRunLemmas::behind_stands))]
fn split_values<'a>(first: &i64, rest: &'a [i64], kind: ColType) -> (usize, &'a [i64])
    requires len { length rest.now < 2 ^ 63 }
    requires stand { AllStandFor kind (first.now ∷ rest.now) }
    ensures run { runs_of (values_for kind (first.now ∷ rest.now))
        ≡ run_of (value_for kind first.now) result.0 ∷ runs_of (values_for kind result.1.now) }
    ensures stand { AllStandFor kind result.1.now }
    ensures within { result.0 + length result.1.now ≤ length rest.now + 1 }
    ensures some { 0 < result.0 }
{
    split_run(first, rest)
}

/// Appends the body of the values that the numbers stand for, whose runs have been counted.
pub fn put_number_runs(
    numbers: &[i64],
    kind: ColType,
    runs: usize,
    out: &mut Vec<u8>,
) -> Result<(), OutOfMemory>
    requires numbers { AllStandFor kind numbers.now }
    requires values { HasRuns kind (values_for kind numbers.now) }
    requires runs { runs ≡ length (runs_of (values_for kind numbers.now)) }
    ensures ok { OnOk result (out.new.items ≡ out.old.items ++ run_length_bytes (values_for kind numbers.now)) }
    ensures err { OnErr result (out.new.items ≡ out.old.items) }
{
    let start = out.len();
    let put = put_body(numbers, kind, runs, out);
    cut_if_failed(out, start, put)
}

/// Appends the body. Without memory a part of it may have been appended.
fn put_body(
    numbers: &[i64],
    kind: ColType,
    runs: usize,
    out: &mut Vec<u8>,
) -> Result<(), OutOfMemory>
    requires numbers { AllStandFor kind numbers.now }
    requires values { HasRuns kind (values_for kind numbers.now) }
    requires runs { runs ≡ length (runs_of (values_for kind numbers.now)) }
    ensures ok { OnOk result (out.new.items ≡ out.old.items ++ run_length_bytes (values_for kind numbers.now)) }
    ensures front { take (vec_len out.old) out.new.items ≡ out.old.items }
{
    put_u32(out, runs as u32)?;
    put_runs(numbers, kind, out)
}

/// Appends a run. Without memory its value may have been appended.
fn put_run(out: &mut Vec<u8>, number: &i64, count: usize, kind: ColType) -> Result<(), OutOfMemory>
    requires run { IsRun kind (run_of (value_for kind number.now) count) }
    requires stand { StandsFor kind number.now }
    ensures ok { OnOk result (out.new.items
        ≡ out.old.items ++ run_bytes (run_of (value_for kind number.now) count)) }
    ensures front { take (vec_len out.old) out.new.items ≡ out.old.items }
{
    put_number(out, *number, kind)?;
    put_u16(out, count as u16)
}

/// Appends the runs. Without memory some of them may have been appended.
fn put_runs(numbers: &[i64], kind: ColType, out: &mut Vec<u8>) -> Result<(), OutOfMemory>
    requires numbers { AllStandFor kind numbers.now }
    requires runs { AllByRecursion (IsRun kind) (runs_of (values_for kind numbers.now)) }
    ensures ok { OnOk result (out.new.items
        ≡ out.old.items ++ flat_map run_bytes (runs_of (values_for kind numbers.now))) }
    ensures front { take (vec_len out.old) out.new.items ≡ out.old.items }
{
    let mut left = numbers;
    'runs: while let [first, rest @ ..] = left {
        let (count, behind) = split_values(first, rest, kind);
        put_run(out, first, count, kind)?;
        left = behind;
    }
    Ok(())
}
