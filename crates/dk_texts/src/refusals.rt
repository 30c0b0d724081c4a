//! The texts of refusals.
ghost use Rattle.std.specs.Prelude.{◌≡◌, ◌++◌, decimal, codes, OnOk};
ghost use Rattle.dk_types.specs.Texts.{damage_text};
ghost use Rattle.dk_texts.specs.Texts.{holder_text, refusal_text};

use crate::pieces::{put, put_counted};
use dk_types::{Damage, Holder, OutOfMemory, Refusal};

fn put_holder(out: &mut Vec<u8>, holder: Holder) -> Result<(), OutOfMemory>
    ensures ok { OnOk result (out.new.items ≡ out.old.items ++ holder_text holder) }
{
    match holder {
        Holder::Transaction(number) => put_counted(out, b" transaction ", number),
        Holder::Commit(number) => put_counted(out, b" commit ", number),
    }
}

fn put_damage(out: &mut Vec<u8>, damage: Damage) -> Result<(), OutOfMemory>
    ensures ok { OnOk result (out.new.items ≡ out.old.items ++ damage_text damage) }
{
    let text = damage.to_string(*out.allocator())?;
    put(out, text.as_bytes())
}

/// Puts words, a number, and a second number behind a blank at the end.
fn put_pair(out: &mut Vec<u8>, words: &[u8], first: u64, second: u64) -> Result<(), OutOfMemory>
    ensures ok { OnOk result (out.new.items ≡ out.old.items ++
        (words.now ++ decimal first ++ codes " " ++ decimal second)) }
{
    put_counted(out, words, first)?;
    put_counted(out, b" ", second)
}

fn put_conflict(out: &mut Vec<u8>, name: &[u8], row: u64, by: Holder) -> Result<(), OutOfMemory>
    ensures ok { OnOk result (out.new.items ≡ out.old.items ++
        (codes "conflict " ++ name.now ++ codes " " ++ decimal row ++ holder_text by)) }
{
    put(out, b"conflict ")?;
    put(out, name)?;
    put_counted(out, b" ", row)?;
    put_holder(out, by)
}

/// Puts the text of a refusal at the end, where that is the name of the table that it is about.
pub fn put_refusal(out: &mut Vec<u8>, name: &[u8], refusal: Refusal) -> Result<(), OutOfMemory>
    ensures ok { OnOk result (out.new.items ≡ out.old.items ++ refusal_text name.now refusal) }
{
    match refusal {
        Refusal::Syntax { at } => put_counted(out, b"syntax error at ", at),
        Refusal::NoTable { at } => put_counted(out, b"no table at ", at),
        Refusal::NoColumn { at } => put_counted(out, b"no column at ", at),
        Refusal::TypeMismatch { at } => put_counted(out, b"type mismatch at ", at),
        Refusal::SameColumn { at } => put_counted(out, b"same column at ", at),
        Refusal::NotGrouped { at } => put_counted(out, b"not grouped at ", at),
        Refusal::TableExists { at } => put_counted(out, b"table exists at ", at),
        Refusal::TooManyTables => put(out, b"too many tables"),
        Refusal::OutOfRange { row } => put_counted(out, b"out of range row ", row),
        Refusal::BadField { row, field } => put_pair(out, b"bad field ", row, u64::from(field)),
        Refusal::TooLarge { bytes, rows } => put_pair(out, b"too large ", bytes, rows),
        Refusal::Conflict { row, by, .. } => put_conflict(out, name, row, by),
        Refusal::Aborted => put(out, b"aborted"),
        Refusal::InTransaction => put(out, b"in transaction"),
        Refusal::NoTransaction => put(out, b"no transaction"),
        Refusal::Stopped { first } => put_counted(out, b"stopped ", first),
        Refusal::DiskFault { stops: true } => put(out, b"disk fault stopped"),
        Refusal::DiskFault { stops: false } => put(out, b"disk fault"),
        Refusal::Damaged(damage) => put_damage(out, damage),
        Refusal::Exhausted(_) => put(out, b"exhausted"),
        Refusal::OutOfMemory => put(out, b"out of memory"),
        Refusal::Unsupported => put(out, b"unsupported"),
    }
}
