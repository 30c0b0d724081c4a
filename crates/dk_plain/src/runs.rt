//! Items that stand in an ascending list by their keys, and how more of them join it. The more may come in any order:
//! they are cut into runs that ascend, and each run joins in one pass.
ghost use Rattle.std.specs.Prelude.{◌≡◌, ℕ, ◌<◌, ◌≤◌, true, ◌++◌, ◌∷◌, length, take, nat_lt, IfOk, OnOk};
ghost use Rattle.std.specs.List.{list_all};
ghost use Rattle.dk_si.specs.Nets.{put_by, put_all, rises};
ghost use Rattle.dk_plain.specs.Runs.{below, behind};

use dk_types::{OutOfMemory, Row, TableNet, TryCopy};
use std::alloc::Global;

/// What has a number by which it stands in an ascending list.
pub trait Keyed: Drop {
    ghost key: { Self → ℕ };

    fn key(&self) -> u64
        ensures { result ≡ key self.now };
}

impl Keyed for u64 {
    ghost key = { λ id. id };

    fn key(&self) -> u64 {
        *self
    }
}

impl Keyed for (u64, Row) {
    ghost key = { λ update. update.0 };

    fn key(&self) -> u64 {
        self.0
    }
}

impl Keyed for TableNet {
    ghost key = { λ part. part.table };

    fn key(&self) -> u64 {
        self.table as u64
    }
}

/// How many items in front ascend from above this key on, each key once.
fn len_above<T: Keyed>(low: u64, items: &[T]) -> usize
    ensures bound { result ≤ length items.now }
    ensures above { list_all (λ item. nat_lt low (T.key item)) (take result items.now) ≡ true }
    ensures rises { rises T.key (take result items.now) ≡ true }
{
    let mut greatest = low;
    let mut count = 0;
    for item in items {
        let key = item.key();
        if key <= greatest {
            return count;
        }
        greatest = key;
        count += 1;
    }
    count
}

/// How many items in front ascend, each key once.
fn run_len<T: Keyed>(items: &[T]) -> usize
    ensures bound { result ≤ length items.now }
    ensures some { 0 < length items.now → 0 < result }
    ensures rises { rises T.key (take result items.now) ≡ true }
{
    match items {
        [] => 0,
        [first, rest @ ..] => len_above(first.key(), rest) + 1,
    }
}

/// Copies the items whose keys are below, and answers those that stand behind them and behind one of that key.
fn copy_below<'a, T: Keyed + TryCopy>(
    all: &mut Vec<T>,
    items: &'a [T],
    bound: u64,
) -> Result<&'a [T], OutOfMemory>
    ensures { IfOk result (λ rest. (all.new.items ≡ all.old.items ++ below T.key bound items.now)
        × (rest.now ≡ behind T.key bound items.now)) }
{
    let mut left = items;
    'items: while let [first, rest @ ..] = left {
        if bound == first.key() {
            return Ok(rest);
        }
        if bound < first.key() {
            return Ok(left);
        }
        all.push(first.copy()?)?;
        left = rest;
    }
    Ok(left)
}

/// Copies all items.
fn copy_all<T: TryCopy>(all: &mut Vec<T>, items: &[T]) -> Result<(), OutOfMemory>
    ensures { OnOk result (all.new.items ≡ all.old.items ++ items.now) }
{
    for item in items {
        all.push(item.copy()?)?;
    }
    Ok(())
}

/// Puts the items of a run into an ascending list, in one pass over both.
fn merge<T: Keyed + TryCopy>(alloc: Global, items: &[T], run: &[T]) -> Result<Vec<T>, OutOfMemory>
    requires { rises T.key run.now ≡ true }
    ensures { IfOk result (λ all. all.items ≡ put_all T.key run.now items.now) }
{
    let mut all = Vec::new(alloc);
    let mut left = items;
    for item in run {
        left = copy_below(&mut all, left, item.key())?;
        all.push(item.copy()?)?;
    }
    copy_all(&mut all, left)?;
    Ok(all)
}

/// Puts items into an ascending list, one after the other. Each takes the place of one with its key.
#[tactic(auto, using(crate::proofs::RunLemmas::put_runs))]
pub fn put_all<T: Keyed + TryCopy>(
    alloc: Global,
    items: &[T],
    more: &[T],
) -> Result<Vec<T>, OutOfMemory>
    ensures { IfOk result (λ all. all.items ≡ put_all T.key more.now items.now) }
{
    let (run, rest) = more.split_at(run_len(more));
    let mut all = merge(alloc, items, run)?;
    let mut left = rest;
    'runs: while left.len() > 0 {
        let (run, rest) = left.split_at(run_len(left));
        all = merge(alloc, all.as_slice(), run)?;
        left = rest;
    }
    Ok(all)
}
