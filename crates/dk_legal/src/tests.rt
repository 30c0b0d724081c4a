//! Small histories: which are legal, and which are legal of one thread.
use crate::acts::{entry, opened, rows};
use crate::alone::{Against, Conflict, is_conflict_alone, is_spent_alone};
use crate::histories::{
    Acts, BEHIND_CONFLICTS_ALONE, Histories, OF_CALLS_TOGETHER, OF_COMMITS, OF_CONFLICTS,
    OF_CONFLICTS_ALONE, OF_FIRST_ACTS, OF_HOLDERS, OF_ITERATIONS, OF_LAST_ITERATIONS, OF_OWN_ROWS,
    OF_SNAPSHOTS, OF_STOPS, OF_TABLES, OF_UPDATED_ROWS, WRITERS,
};
use crate::scene::{RowId, Seat};
use crate::{run_slow, run_slow_alone};
use dk_plain::weights::weight;
use dk_si::history::Entries;
use dk_si::limits::{GROUP_ROWS, MAX_TRANSACTIONS};
use dk_si::machine::{Machine, WriteSet};
use dk_states::machine::{first_state, next};
use dk_types::{Holder, List, OutOfMemory, Rows, TableNet};
use std::alloc::Global;
use std::test::Fail;

fn entries(alloc: Global, begin: &[Acts], acts: Acts) -> Result<Entries, OutOfMemory> {
    let mut entries = List::new(alloc);
    for part in begin {
        for (session, act) in *part {
            entries.push(entry(alloc, *session, act)?)?;
        }
    }
    for (session, act) in acts {
        entries.push(entry(alloc, *session, act)?)?;
    }
    Ok(entries)
}

/// Whether these acts, behind those with which the histories begin, are a legal history, of any threads or of one.
fn is_legal(
    alloc: Global,
    histories: &Histories,
    acts: Acts,
    alone: bool,
) -> Result<bool, OutOfMemory> {
    let (numbers, iteration, begin, _) = *histories;
    let database = match numbers {
        None => List::new(alloc),
        Some(numbers) => opened(alloc, numbers)?,
    };
    let entries = entries(alloc, begin, acts)?;
    if alone {
        return run_slow_alone(alloc, &database, iteration, &entries);
    }
    run_slow(alloc, &database, iteration, &entries)
}

/// The place of the first case that is decided wrongly.
fn first_wrong(
    alloc: Global,
    all: &[Histories],
    alone: bool,
) -> Result<Option<(usize, usize)>, OutOfMemory> {
    for (i, histories) in all.iter().enumerate() {
        for (place, (legal, acts)) in histories.3.iter().enumerate() {
            if is_legal(alloc, histories, *acts, alone)? != *legal {
                return Ok(Some((i, place)));
            }
        }
    }
    Ok(None)
}

#[test]
fn conflicts_are_decided(rt: HostRuntime) -> Result<(), Fail> {
    assert_eq!(rt; first_wrong(rt.alloc(), OF_CONFLICTS, false)?, None);
    Ok(())
}

#[test]
fn rows_that_are_held_are_decided(rt: HostRuntime) -> Result<(), Fail> {
    assert_eq!(rt; first_wrong(rt.alloc(), OF_HOLDERS, false)?, None);
    Ok(())
}

#[test]
fn commits_are_decided(rt: HostRuntime) -> Result<(), Fail> {
    assert_eq!(rt; first_wrong(rt.alloc(), OF_COMMITS, false)?, None);
    Ok(())
}

#[test]
fn first_acts_are_decided(rt: HostRuntime) -> Result<(), Fail> {
    assert_eq!(rt; first_wrong(rt.alloc(), OF_FIRST_ACTS, false)?, None);
    Ok(())
}

#[test]
fn own_rows_are_decided(rt: HostRuntime) -> Result<(), Fail> {
    assert_eq!(rt; first_wrong(rt.alloc(), OF_OWN_ROWS, false)?, None);
    Ok(())
}

#[test]
fn updated_rows_are_decided(rt: HostRuntime) -> Result<(), Fail> {
    assert_eq!(rt; first_wrong(rt.alloc(), OF_UPDATED_ROWS, false)?, None);
    Ok(())
}

#[test]
fn stops_are_decided(rt: HostRuntime) -> Result<(), Fail> {
    assert_eq!(rt; first_wrong(rt.alloc(), OF_STOPS, false)?, None);
    Ok(())
}

#[test]
fn snapshots_are_decided(rt: HostRuntime) -> Result<(), Fail> {
    assert_eq!(rt; first_wrong(rt.alloc(), OF_SNAPSHOTS, false)?, None);
    Ok(())
}

#[test]
fn new_tables_are_decided(rt: HostRuntime) -> Result<(), Fail> {
    assert_eq!(rt; first_wrong(rt.alloc(), OF_TABLES, false)?, None);
    Ok(())
}

#[test]
fn iterations_are_decided(rt: HostRuntime) -> Result<(), Fail> {
    assert_eq!(rt; first_wrong(rt.alloc(), OF_ITERATIONS, false)?, None);
    Ok(())
}

#[test]
fn last_iterations_are_decided(rt: HostRuntime) -> Result<(), Fail> {
    assert_eq!(rt; first_wrong(rt.alloc(), OF_LAST_ITERATIONS, false)?, None);
    Ok(())
}

#[test]
fn conflicts_of_one_thread_are_decided(rt: HostRuntime) -> Result<(), Fail> {
    assert_eq!(rt; first_wrong(rt.alloc(), OF_CONFLICTS_ALONE, true)?, None);
    Ok(())
}

#[test]
fn what_follows_a_conflict_of_one_thread_is_decided(rt: HostRuntime) -> Result<(), Fail> {
    assert_eq!(rt;
        first_wrong(rt.alloc(), BEHIND_CONFLICTS_ALONE, true)?,
        None
    );
    Ok(())
}

#[test]
fn first_acts_of_one_thread_are_decided(rt: HostRuntime) -> Result<(), Fail> {
    assert_eq!(rt; first_wrong(rt.alloc(), OF_FIRST_ACTS, true)?, None);
    Ok(())
}

#[test]
fn calls_in_flight_together_are_decided(rt: HostRuntime) -> Result<(), Fail> {
    assert_eq!(rt; first_wrong(rt.alloc(), OF_CALLS_TOGETHER, true)?, None);
    Ok(())
}

/// The state in which session 1 has begun, and session 2 has updated both rows.
fn with_writers(alloc: Global) -> Result<Machine, OutOfMemory> {
    let database = opened(alloc, &[1, 2])?;
    let mut machine = first_state(alloc)?;
    for entry in entries(alloc, &[], WRITERS)?.as_slice() {
        next(&mut machine, alloc, database.as_slice(), entry)?;
    }
    Ok(machine)
}

/// So many new rows, each of no value.
fn new_rows(alloc: Global, count: usize) -> Result<TableNet, OutOfMemory> {
    let mut rows = Rows::new(alloc);
    for _row in 0..count {
        rows.push(List::new(alloc))?;
    }
    Ok(TableNet {
        table: 0,
        updates: List::new(alloc),
        deletes: List::new(alloc),
        rows,
    })
}

/// Whether session 1 is refused for the first row, where its net has so many new rows.
fn is_refused_for_row(alloc: Global, count: usize) -> Result<bool, OutOfMemory> {
    let machine = with_writers(alloc)?;
    let mut ids = List::new(alloc);
    ids.push(0)?;
    let mut net = Vec::new(alloc);
    net.push(new_rows(alloc, count)?)?;
    let against = Against {
        machine: &machine,
        number: 1,
        start: 0,
    };
    let conflict = Conflict {
        at: RowId { table: 0, row: 0 },
        by: Holder::Transaction(1),
    };
    is_conflict_alone(
        alloc,
        &against,
        &Some(WriteSet { table: 0, ids }),
        &net,
        conflict,
    )
}

#[test]
fn a_size_is_refused_before_a_row(rt: HostRuntime) -> Result<(), Fail> {
    assert!(rt; is_refused_for_row(rt.alloc(), 1)?);
    assert!(rt; !is_refused_for_row(rt.alloc(), GROUP_ROWS)?);
    Ok(())
}

/// Whether no transaction can begin, where so many have begun.
fn is_spent_behind(alloc: Global, begun: u64) -> Result<bool, OutOfMemory> {
    let database = opened(alloc, &[1, 2])?;
    let mut machine = with_writers(alloc)?;
    machine.begun = begun;
    let seat = Seat {
        opened: database.as_slice(),
        machine: &machine,
        number: 1,
    };
    Ok(is_spent_alone(&seat))
}

#[test]
fn transactions_are_counted(rt: HostRuntime) -> Result<(), Fail> {
    assert!(rt; !is_spent_behind(rt.alloc(), MAX_TRANSACTIONS - 1)?);
    assert!(rt; is_spent_behind(rt.alloc(), MAX_TRANSACTIONS)?);
    Ok(())
}

/// The bytes of the record of a table's new rows.
fn record_len(alloc: Global, numbers: &[i64]) -> Result<u64, OutOfMemory> {
    let mut parts = Vec::new(alloc);
    parts.push(TableNet {
        table: 0,
        updates: List::new(alloc),
        deletes: List::new(alloc),
        rows: Rows::from_list(alloc, &rows(alloc, numbers)?)?,
    })?;
    weight(alloc, parts.as_slice())
}

#[test]
fn a_net_weighs_its_record(rt: HostRuntime) -> Result<(), Fail> {
    // a tag and a count of tables
    assert_eq!(rt; weight(rt.alloc(), &[])?, 3);
    // a table's number and four counts, and two rows of a byte and a number
    assert_eq!(rt; record_len(rt.alloc(), &[3, 4])?, 3 + 20 + 2 * 9);
    Ok(())
}
