//! Parts of a payload that stand one behind the other: values, updates and tables.
ghost use Rattle.std.specs.Prelude.{◌≡◌, ◌++◌, ℕ, List, length, OnOk};
ghost use Rattle.std.specs.List.{flat_map, AllByRecursion};
ghost use Rattle.dk_fault.specs.Counts.{capped};

use crate::payload_size::{table_len, update_len, value_len};
use crate::put::{put_table, put_update, put_value};
use dk_pages::LogTable;
use dk_types::{OutOfMemory, Row};
use dk_values::Value;

/// A part of a payload.
pub(crate) trait Part {
    /// Its bytes.
    ghost spell: { Self → List ℕ };

    /// Its lengths and numbers fit their fields.
    ghost fits: { Self → Type 0 };

    /// Appends it.
    fn put(&self, out: &mut Vec<u8>) -> Result<(), OutOfMemory>
        requires { fits self.now }
        ensures { OnOk result (out.new.items ≡ out.old.items ++ spell self.now) };

    /// How many bytes it has. The greatest number of 64 bits stands for all above.
    fn len(&self) -> u64
        ensures { result ≡ capped (length (spell self.now)) };
}

/// Appends all parts.
pub(crate) fn put_each<T: Part>(out: &mut Vec<u8>, parts: &[T]) -> Result<(), OutOfMemory>
    requires { AllByRecursion T.fits parts.now }
    ensures { OnOk result (out.new.items ≡ out.old.items ++ flat_map T.spell parts.now) }
{
    let mut left = parts;
    'parts: while let [part, rest @ ..] = left {
        part.put(out)?;
        left = rest;
    }
    Ok(())
}

/// How many bytes all parts have.
pub(crate) fn len_each<T: Part>(parts: &[T]) -> u64
    ensures { result ≡ capped (length (flat_map T.spell parts.now)) }
{
    let mut len: u64 = 0;
    let mut left = parts;
    'parts: while let [part, rest @ ..] = left {
        len = len.saturating_add(part.len());
        left = rest;
    }
    len
}

impl Part for Value {
    ghost use Rattle.dk_bytes.specs.RowFields.{cell_bytes};
    ghost use Rattle.dk_wal.specs.Writable.{IsShort};

    ghost spell = { cell_bytes };

    ghost fits = { IsShort };

    fn put(&self, out: &mut Vec<u8>) -> Result<(), OutOfMemory> {
        put_value(out, self)
    }

    fn len(&self) -> u64 {
        value_len(self)
    }
}

impl Part for (u64, Row) {
    ghost use Rattle.dk_wal.specs.Payload.{update_bytes};
    ghost use Rattle.dk_wal.specs.Writable.{ShortUpdate};

    ghost spell = { update_bytes };

    ghost fits = { ShortUpdate };

    fn put(&self, out: &mut Vec<u8>) -> Result<(), OutOfMemory> {
        put_update(out, self)
    }

    fn len(&self) -> u64 {
        update_len(self)
    }
}

impl Part for LogTable {
    ghost use Rattle.dk_wal.specs.Payload.{table_bytes};
    ghost use Rattle.dk_wal.specs.Writable.{ShortTable};

    ghost spell = { table_bytes };

    ghost fits = { ShortTable };

    fn put(&self, out: &mut Vec<u8>) -> Result<(), OutOfMemory> {
        put_table(out, self)
    }

    fn len(&self) -> u64 {
        table_len(self)
    }
}
