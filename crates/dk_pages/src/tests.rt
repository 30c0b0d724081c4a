//! That what stands in the files is copied whole and compared whole.
ghost use Rattle.std.specs.Prelude.{[], ◌∷◌, IfOk};
ghost use Rattle.dk_values.specs.declared.value.ColType.TheVariants.{Int};
ghost use Rattle.dk_columns.specs.OptionTables.{FitsKinds};

use crate::state::OptionRows;
use crate::{
    GroupPage, GroupRef, GroupState, LogCommit, LogTable, Page, Placed, SegmentRef, TableEntry,
    TableState,
};
use dk_rows::Rows;
use dk_values::{Bytes, ColType, Column, List, OutOfMemory, Row, Schema, TryCopy, Value};
use std::alloc::Global;
use std::test::Fail;

fn bytes(alloc: Global, text: &[u8]) -> Result<Bytes, OutOfMemory> {
    Ok(List::from_vec(Vec::from_slice(alloc, text)?))
}

fn schema(alloc: Global) -> Result<Schema, Fail> {
    let column = Column {
        name: bytes(alloc, b"a")?,
        kind: ColType::Int,
    };
    match Schema::new(vec![in alloc; column]?) {
        Ok(schema) => Ok(schema),
        Err(_) => Err(Fail::new("one column is a schema")),
    }
}

fn row(alloc: Global, number: i32) -> Result<Row, OutOfMemory>
    ensures { IfOk result (λ row. FitsKinds (Int ∷ []) row) }
{
    Ok(List::from_vec(vec![in alloc; Value::Int(number)]?))
}

fn one_row(alloc: Global, number: i32) -> Result<Rows, OutOfMemory> {
    let mut rows = Rows::new(alloc);
    rows.push(row(alloc, number)?)?;
    Ok(rows)
}

fn rows(alloc: Global, number: i32) -> Result<OptionRows, OutOfMemory> {
    let row = row(alloc, number)?;
    let mut rows = OptionRows::new(alloc, &[ColType::Int])?;
    rows.push_missing()?;
    rows.push(&row)?;
    Ok(rows)
}

fn placed(alloc: Global, bytes: u32) -> Result<Placed, OutOfMemory> {
    let segment = SegmentRef {
        block: 4,
        offset: 17,
        bytes,
        rows: 2,
    };
    let vector = List::from_vec(vec![in alloc; segment]?);
    let column = List::from_vec(vec![in alloc; vector]?);
    let page = GroupPage {
        rows: 2,
        deleted: List::from_vec(vec![in alloc; 1]?),
        columns: List::from_vec(vec![in alloc; column]?),
    };
    Ok(Placed {
        group: GroupRef { root: 3, rows: 2 },
        page,
        blocks: List::from_vec(vec![in alloc; 3, 4]?),
    })
}

fn table(alloc: Global, bytes: u32, number: i32) -> Result<TableState, Fail> {
    let loaded = GroupState::Loaded {
        placed: placed(alloc, bytes)?,
        rows: rows(alloc, 8)?,
    };
    let fresh = GroupState::Fresh {
        rows: rows(alloc, number)?,
    };
    let kept = GroupState::Kept {
        group: GroupRef { root: 3, rows: 2 },
    };
    Ok(TableState {
        name: self::bytes(alloc, b"t")?,
        schema: schema(alloc)?,
        groups: List::from_vec(vec![in alloc; kept, loaded, fresh]?),
    })
}

/// Whether a copy equals its value, and another value doesn't.
fn is_whole<T: TryCopy + PartialEq>(value: T, other: T) -> Result<bool, OutOfMemory> {
    Ok(value.copy()? == value && value != other)
}

fn states_are_whole(alloc: Global) -> Result<bool, Fail> {
    let placed = is_whole(placed(alloc, 100)?, placed(alloc, 101)?)?;
    Ok(placed && is_whole(table(alloc, 100, 9)?, table(alloc, 100, 10)?)?)
}

fn entry(alloc: Global, root: u64) -> Result<TableEntry, Fail> {
    Ok(TableEntry {
        name: bytes(alloc, b"t")?,
        schema: schema(alloc)?,
        groups: List::from_vec(vec![in alloc; GroupRef { root, rows: 2 }]?),
    })
}

fn change(alloc: Global, number: i32) -> Result<LogCommit, OutOfMemory> {
    let table = LogTable {
        table: 5,
        updates: List::from_vec(vec![in alloc; (7, row(alloc, number)?)]?),
        deletes: List::from_vec(vec![in alloc; 8]?),
        groups: List::from_vec(vec![in alloc; 9]?),
        tail: one_row(alloc, 1)?,
    };
    Ok(LogCommit::Change {
        tables: List::from_vec(vec![in alloc; table]?),
    })
}

fn create(alloc: Global) -> Result<LogCommit, Fail> {
    Ok(LogCommit::Create {
        name: bytes(alloc, b"t")?,
        schema: schema(alloc)?,
    })
}

fn page(alloc: Global, first: u64) -> Result<Page, OutOfMemory> {
    Ok(Page {
        first,
        rows: rows(alloc, 2)?,
    })
}

fn trees_are_whole(alloc: Global) -> Result<bool, Fail> {
    Ok(is_whole(entry(alloc, 6)?, entry(alloc, 7)?)?)
}

fn records_are_whole(alloc: Global) -> Result<bool, Fail> {
    let changes = is_whole(change(alloc, 6)?, change(alloc, 7)?)?;
    Ok(changes && is_whole(create(alloc)?, change(alloc, 6)?)?)
}

#[test]
fn what_stands_in_the_files_is_copied_and_compared_whole(rt: HostRuntime) -> Result<(), Fail> {
    let alloc = rt.alloc();
    assert!(rt; states_are_whole(alloc)?);
    assert!(rt; trees_are_whole(alloc)?);
    assert!(rt; records_are_whole(alloc)?);
    assert!(rt; is_whole(page(alloc, 0)?, page(alloc, 122_880)?)?);
    Ok(())
}
