//! Aggregates: count, sum, min and max over values that come one after another.
ghost use Rattle.std.specs.Prelude.{◌≡◌, ◌+◌, ◌-◌, ◌*◌, ◌<◌, ◌≤◌, ◌^◌, ◌+ℤ◌, ◌≤ℤ◌, neg_ℤ, pos, unwrap_or, OnOk, OnErr};
ghost use Rattle.dk_eval.specs.Aggregates.{nothing, precedes, replaces, better, take_value, result_of};
ghost use Rattle.dk_eval.specs.Values.{number_of};

use crate::comparisons::compare;
use crate::kinds::{is_null, number_of};
use dk_syntax::FoldKind;
use dk_values::{OutOfMemory, TryCopy, Value};
use std::marker::Model;

/// An aggregate over the values that it took so far. Null is passed over.
///
/// The sum of less than 2^63 numbers of 64 bits has less than 128 bits.
#[derive(Debug, Drop)]
pub struct Accumulator {
    kind: FoldKind,
    seen: u64,
    total: i128,
    best: Value,
}

impl Model for Accumulator {
    ghost use Rattle.std.specs.Prelude.{◌<◌, ◌^◌, ◌*◌, ◌≤ℤ◌, neg_ℤ, pos};
    ghost use Rattle.dk_eval.specs.Aggregates.{Taken};

    ghost Value = { Taken };

    ghost view = { λ taken. record {
      kind = taken.kind;
      seen = taken.seen;
      total = taken.total;
      best = taken.best;
    } };

    ghost invariant = { λ taken. (taken.seen < 2 ^ 63)
        × (neg_ℤ (pos (2 ^ 63 * taken.seen)) ≤ℤ taken.total)
        × (taken.total ≤ℤ pos (2 ^ 63 * taken.seen)) };
}

/// Whether the first value goes before the second.
fn precedes(left: &Value, right: &Value) -> bool
    ensures { result ≡ precedes left.now right.now }
{
    match compare(left, right) {
        None => false,
        Some(order) => order.is_lt(),
    }
}

/// Whether a value takes the place of the best so far.
fn replaces(kind: FoldKind, value: &Value, best: &Value) -> bool
    ensures { result ≡ replaces kind value.now best.now }
{
    match kind {
        FoldKind::Min => is_null(best) || precedes(value, best),
        FoldKind::Max => is_null(best) || precedes(best, value),
        FoldKind::Count | FoldKind::Sum => false,
    }
}

/// Puts a value in the place of the best so far, if it takes it.
fn keep_best(best: &mut Value, kind: FoldKind, value: &Value) -> Result<(), OutOfMemory>
    ensures ok { OnOk result (best.new ≡ better kind best.old value.now) }
    ensures err { OnErr result (best.new ≡ best.old) }
{
    if replaces(kind, value, best) {
        *best = value.copy()?;
    }
    Ok(())
}

fn number_or_zero(value: &Value) -> i64
    ensures { result ≡ unwrap_or (number_of value.now) (pos 0) }
{
    match number_of(value) {
        None => 0,
        Some(number) => number,
    }
}

/// The total of one number more.
fn raise(total: i128, seen: u64, number: i64) -> i128
    requires few { seen < 2 ^ 63 - 1 }
    requires low { neg_ℤ (pos (2 ^ 63 * seen)) ≤ℤ total }
    requires high { total ≤ℤ pos (2 ^ 63 * seen) }
    ensures total { result ≡ total +ℤ number }
    ensures low { neg_ℤ (pos (2 ^ 63 * (seen + 1))) ≤ℤ result }
    ensures high { result ≤ℤ pos (2 ^ 63 * (seen + 1)) }
{
    total + i128::from(number)
}

impl Accumulator {
    pub fn new(kind: FoldKind) -> Accumulator
        ensures { result ≡ nothing kind }
    {
        Accumulator {
            kind,
            seen: 0,
            total: 0,
            best: Value::Null,
        }
    }

    /// Takes a value.
    pub fn push(&mut self, value: &Value) -> Result<(), OutOfMemory>
        requires { self.old.seen < 2 ^ 63 - 1 }
        ensures ok { OnOk result (self.new ≡ take_value self.old value.now) }
        ensures err { OnErr result (self.new ≡ self.old) }
        ensures few { self.new.seen ≤ self.old.seen + 1 }
    {
        if is_null(value) {
            return Ok(());
        }
        keep_best(&mut self.best, self.kind, value)?;
        self.total = raise(self.total, self.seen, number_or_zero(value));
        self.seen += 1;
        Ok(())
    }

    /// What the aggregate makes of the values.
    pub fn finish(self) -> Value
        ensures { result ≡ result_of self }
    {
        match self.kind {
            FoldKind::Count => Value::Big(self.seen as i64),
            FoldKind::Sum => if self.seen == 0 {
                Value::Null
            } else {
                Value::Huge(self.total)
            },
            FoldKind::Min | FoldKind::Max => self.best,
        }
    }
}
