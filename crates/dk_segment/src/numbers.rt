//! The bodies of numbers that stand for the values of a column without nulls: what is to be known of the numbers is
//! found first, and all sizes follow from it.
ghost use Rattle.std.specs.Prelude.{◌≡◌, ◌++◌, ◌+◌, ◌*◌, ◌≤◌, ◌==◌, length, Some, None, OnOk, if◌then◌else◌};
ghost use Rattle.dk_bytes.specs.PlainValue.{plain_bytes};
ghost use Rattle.dk_seg_body.specs.Numbers.{StandsFor, AllStandFor, value_for, values_for, number_len};
ghost use Rattle.dk_segment.specs.Bodies.{Holds, body_of};
ghost use Rattle.dk_segment.specs.Choice.{AreSizes, IsBest};
ghost use Rattle.dk_segment.specs.declared.present.TheConstants.{MAX_VALUES};
ghost use Rattle.dk_segment.specs.Profile.{AreFew, IsProfile, sizes_for};

use crate::choice::{Sizes, best};
use crate::encoding::Encoding;
use dk_bytes::byte_count;
use dk_seg_body::{number_len, put_number};
use dk_seg_pack::numbers::{RankRange, put_packed, range_of, range_width};
use dk_seg_run::number_runs::{count_runs, put_number_runs};
use dk_seg_text::plain::put_numbers;
use dk_values::{ColType, OutOfMemory};

/// The least and the greatest rank of some numbers, and how many runs they have.
#[derive(Clone, Copy)]
pub(crate) struct Profile {
    pub(crate) range: RankRange,
    pub(crate) runs: usize,
}

/// What is to be known of the numbers.
fn profile_of(numbers: &[i64]) -> Profile
    ensures { IsProfile numbers.now result }
{
    Profile {
        range: range_of(numbers),
        runs: count_runs(numbers),
    }
}

/// An encoding, and what is to be known of the numbers that it is for.
#[derive(Clone, Copy)]
pub(crate) struct Plan {
    pub(crate) encoding: Encoding,
    pub(crate) profile: Profile,
}

/// The encoding of least size for the values that the numbers stand for.
pub(crate) fn plan_for(numbers: &[i64], kind: ColType) -> Plan
    requires { AreFew kind numbers.now }
    ensures best { IsBest kind (values_for kind numbers.now) result.encoding }
    ensures profile { IsProfile numbers.now result.profile }
{
    let profile = profile_of(numbers);
    let encoding = best(number_sizes(numbers, kind, profile));
    Plan { encoding, profile }
}

/// How long the body of each encoding is that holds the values.
fn number_sizes(numbers: &[i64], kind: ColType, profile: Profile) -> Sizes
    requires few { AreFew kind numbers.now }
    requires profile { IsProfile numbers.now profile }
    ensures { AreSizes kind (values_for kind numbers.now) result }
{
    sizes_for(numbers.len(), kind, profile)
}

/// How long the bodies of so many numbers are.
fn sizes_for(count: usize, kind: ColType, profile: Profile) -> Sizes
    requires count { count ≤ MAX_VALUES }
    requires runs { profile.runs ≤ MAX_VALUES }
    ensures { result ≡ sizes_for kind count profile }
{
    let constant = if profile.runs == 1 {
        Some(number_len(kind))
    } else {
        None
    };
    Sizes {
        constant,
        run_length: some_if(count, 4 + runs_len(profile.runs, kind)),
        packed: some_if(
            count,
            9 + byte_count(range_width(profile.range), count) as usize,
        ),
        dictionary: None,
        plain: values_len(count, kind),
    }
}

/// How many bytes so many values have.
fn values_len(count: usize, kind: ColType) -> usize
    requires { count ≤ MAX_VALUES }
    ensures { result ≡ number_len kind * count }
{
    match kind {
        ColType::Bool => count,
        ColType::Int => 4 * count,
        ColType::Big => 8 * count,
        ColType::Text => 0,
    }
}

/// How many bytes so many runs have.
fn runs_len(runs: usize, kind: ColType) -> usize
    requires { runs ≤ MAX_VALUES }
    ensures value { result ≡ (number_len kind + 2) * runs }
    ensures small { result ≤ 10 * MAX_VALUES }
{
    match kind {
        ColType::Bool => 3 * runs,
        ColType::Int => 6 * runs,
        ColType::Big => 10 * runs,
        ColType::Text => 2 * runs,
    }
}

/// The size, where there are values.
fn some_if(count: usize, size: usize) -> Option<usize>
    ensures { result ≡ (if count == 0 then None else Some size) }
{
    if count == 0 { None } else { Some(size) }
}

/// Appends the body of the values that the numbers stand for.
pub(crate) fn put_number_body(
    encoding: Encoding,
    numbers: &[i64],
    kind: ColType,
    profile: Profile,
    out: &mut Vec<u8>,
) -> Result<(), OutOfMemory>
    requires few { AreFew kind numbers.now }
    requires profile { IsProfile numbers.now profile }
    requires holds { Holds encoding kind (values_for kind numbers.now) }
    ensures { OnOk result (out.new.items ≡ out.old.items ++ body_of encoding (values_for kind numbers.now)) }
{
    match encoding {
        Encoding::Constant => put_first(numbers, kind, out),
        Encoding::RunLength => put_runs(numbers, kind, profile, out),
        Encoding::Packed => put_differences(numbers, kind, profile, out),
        Encoding::Dictionary => unreachable!(),
        Encoding::Plain => put_numbers(numbers, kind, out),
    }
}

/// Appends the first value, which all are.
fn put_first(numbers: &[i64], kind: ColType, out: &mut Vec<u8>) -> Result<(), OutOfMemory>
    requires stand { AllStandFor kind numbers.now }
    requires holds { Holds Encoding.Constant kind (values_for kind numbers.now) }
    ensures { OnOk result (out.new.items ≡ out.old.items ++ body_of Encoding.Constant (values_for kind numbers.now)) }
{
    match numbers {
        [first, rest @ ..] => put_one(first, kind, out),
        [] => unreachable!(),
    }
}

/// Appends the value that a number stands for.
fn put_one(number: &i64, kind: ColType, out: &mut Vec<u8>) -> Result<(), OutOfMemory>
    requires { StandsFor kind number.now }
    ensures { OnOk result (out.new.items ≡ out.old.items ++ plain_bytes (value_for kind number.now)) }
{
    put_number(out, *number, kind)
}

/// Appends the runs of the values.
fn put_runs(
    numbers: &[i64],
    kind: ColType,
    profile: Profile,
    out: &mut Vec<u8>,
) -> Result<(), OutOfMemory>
    requires stand { AllStandFor kind numbers.now }
    requires profile { IsProfile numbers.now profile }
    requires holds { Holds Encoding.RunLength kind (values_for kind numbers.now) }
    ensures { OnOk result (out.new.items ≡ out.old.items ++ body_of Encoding.RunLength (values_for kind numbers.now)) }
{
    put_number_runs(numbers, kind, profile.runs, out)
}

/// Appends what the values stand above the least one.
fn put_differences(
    numbers: &[i64],
    kind: ColType,
    profile: Profile,
    out: &mut Vec<u8>,
) -> Result<(), OutOfMemory>
    requires stand { AllStandFor kind numbers.now }
    requires profile { IsProfile numbers.now profile }
    ensures { OnOk result (out.new.items ≡ out.old.items ++ body_of Encoding.Packed (values_for kind numbers.now)) }
{
    put_packed(numbers, profile.range, out)
}
