//! The seats of the sessions.
ghost use Rattle.std.specs.Prelude.{◌≡◌, ◌-◌, ◌++◌, [], Some, None, length, option_map, slice_set, IfOk, OnOk, OnErr};
ghost use Rattle.std.proofs.Math.ListN.{replicate};
ghost use Rattle.std.specs.Option.{option_copied};
ghost use Rattle.dk_core.specs.Core.{no_seat, seat_at};
ghost use Rattle.dk_core.specs.Step.{seat_after_reply, without_oldest, without_newest, appended_part};
ghost use Rattle.dk_slow_seats.specs.Seats.{with_seat, seats_put, with_version, start_at, committed_at};

use dk_core::{NewTable, Seat, Snapshot};
use dk_types::{Commit, List, OutOfMemory, Refusal, Rows, TableNet, TryCopy};
use std::alloc::Global;
use std::mem::replace;

/// Puts an item in the place of that number, counted from 1, if there is such a place.
pub fn put<T: Drop>(items: &mut Vec<T>, number: u32, item: T)
    ensures { items.new.items ≡ slice_set items.old.items (number - 1) item }
{
    let place = (number as usize).saturating_sub(1);
    if place < items.len() {
        items[place] = item;
    }
}

fn no_seat(alloc: Global) -> Seat
    ensures { result ≡ no_seat }
{
    Seat {
        live: None,
        versions: List::new(alloc),
        made: List::new(alloc),
        found: None,
        creates: None,
    }
}

/// So many seats without anything.
pub fn empty_seats(alloc: Global, count: usize) -> Result<Vec<Seat>, OutOfMemory>
    ensures { IfOk result (λ seats. seats.items ≡ replicate count no_seat) }
{
    let mut seats = Vec::new(alloc);
    'seats: for _number in 0..count {
        seats.push(no_seat(alloc))?;
    }
    Ok(seats)
}

/// The seat of the session of that number, counted from 1.
pub fn seat_at(seats: &[Seat], number: u32) -> Option<&Seat>
    ensures { option_copied result ≡ seat_at seats.now number }
{
    if number == 0 {
        return None;
    }
    seats.get(number as usize - 1)
}

/// Puts a seat in the place of that session, if there is one to put.
pub fn put_seat(seats: &mut Vec<Seat>, number: u32, seat: Option<Seat>)
    ensures { seats.new.items ≡ seats_put seats.old.items number seat }
{
    if let Some(seat) = seat {
        put(seats, number, seat);
    }
}

/// Notes what an event refused, or that none did.
pub fn set_found(seats: &mut Vec<Seat>, number: u32, found: Option<Refusal>)
    ensures { seats.new.items ≡ with_seat seats.old.items number (λ seat. record seat { found = found }) }
{
    let place = number as usize;
    if 0 < place && place <= seats.len() {
        seats[place - 1].found = found;
    }
}

/// A session's snapshot ends.
pub fn end_snapshot(seats: &mut Vec<Seat>, number: u32)
    ensures { seats.new.items ≡ with_seat seats.old.items number (λ seat. record seat { live = None }) }
{
    let place = number as usize;
    if 0 < place && place <= seats.len() {
        seats[place - 1].live = None;
    }
}

/// A session has a snapshot, and no versions yet.
pub fn begin_snapshot(alloc: Global, seats: &mut Vec<Seat>, number: u32, live: Snapshot)
    ensures { seats.new.items ≡ with_seat seats.old.items number (λ seat. record no_seat { live = Some live }) }
{
    let place = number as usize;
    if 0 < place && place <= seats.len() {
        let mut seat = no_seat(alloc);
        seat.live = Some(live);
        seats[place - 1] = seat;
    }
}

/// A copy of a snapshot.
pub fn copy_of_snapshot(live: &Option<Snapshot>) -> Option<Snapshot>
    ensures { result ≡ live.now }
{
    match live {
        None => None,
        Some(live) => Some(Snapshot {
            number: live.number,
            start: live.start,
            commit: live.commit,
        }),
    }
}

/// A session's seat behind a reply, if it has one.
pub fn seat_behind_reply(
    alloc: Global,
    seats: &[Seat],
    number: u32,
) -> Result<Option<Seat>, OutOfMemory>
    ensures { IfOk result (λ after. after ≡ option_map seat_after_reply (seat_at seats.now number)) }
{
    let Some(seat) = seat_at(seats, number) else {
        return Ok(None);
    };
    Ok(Some(seat_after_reply(alloc, seat)?))
}

/// The seat behind a reply: what the call made joins the versions of the transaction.
fn seat_after_reply(alloc: Global, seat: &Seat) -> Result<Seat, OutOfMemory>
    ensures { IfOk result (λ after. after ≡ seat_after_reply seat.now) }
{
    let mut versions = seat.made.copy()?;
    versions.append(seat.versions.copy()?)?;
    Ok(Seat {
        live: copy_of_snapshot(&seat.live),
        versions,
        made: List::new(alloc),
        found: None,
        creates: None,
    })
}

/// All but the oldest version.
fn without_oldest(versions: List<TableNet>) -> List<TableNet>
    ensures { result ≡ without_oldest versions }
{
    let mut items = versions.into_vec();
    items.truncate(items.len().saturating_sub(1));
    List::from_vec(items)
}

/// All but the newest version.
fn without_newest(versions: List<TableNet>) -> List<TableNet>
    ensures { result ≡ without_newest versions }
{
    let mut items = versions.into_vec();
    if items.len() != 0 {
        items.remove(0);
    }
    List::from_vec(items)
}

fn stamp_in(alloc: Global, seat: &mut Seat)
    ensures { seat.new ≡ record seat.old { versions = without_oldest seat.old.versions } }
{
    let versions = replace(&mut seat.versions, List::new(alloc));
    seat.versions = without_oldest(versions);
}

fn undo_in(alloc: Global, seat: &mut Seat)
    ensures { seat.new ≡ record seat.old { versions = without_newest seat.old.versions } }
{
    let versions = replace(&mut seat.versions, List::new(alloc));
    seat.versions = without_newest(versions);
}

/// A session's oldest version has its commit's number, and is none of its own any more.
pub fn stamp_oldest(alloc: Global, seats: &mut Vec<Seat>, number: u32)
    ensures { seats.new.items ≡ with_seat seats.old.items number (λ seat. record seat {
      versions = without_oldest seat.versions;
    }) }
{
    let place = number as usize;
    if 0 < place && place <= seats.len() {
        stamp_in(alloc, &mut seats[place - 1]);
    }
}

/// A session's newest version is undone.
pub fn undo_newest(alloc: Global, seats: &mut Vec<Seat>, number: u32)
    ensures { seats.new.items ≡ with_seat seats.old.items number (λ seat. record seat {
      versions = without_newest seat.versions;
    }) }
{
    let place = number as usize;
    if 0 < place && place <= seats.len() {
        undo_in(alloc, &mut seats[place - 1]);
    }
}

/// The first point of a creation gives the table.
pub fn set_creates(seats: &mut Vec<Seat>, number: u32, creates: NewTable)
    ensures { seats.new.items ≡ with_seat seats.old.items number (λ seat. record seat { creates = Some creates }) }
{
    let place = number as usize;
    if 0 < place && place <= seats.len() {
        seats[place - 1].creates = Some(creates);
    }
}

/// How many commits the snapshot of a session sees, if it has one.
pub fn start_of(seats: &[Seat], number: u32) -> Option<u64>
    ensures { result ≡ start_at seats.now number }
{
    let live = seat_at(seats, number)?.live.as_ref()?;
    Some(live.start)
}

/// The version that rows are which go into a group.
pub fn appended_part(alloc: Global, table: u32, rows: Rows) -> TableNet
    ensures { result ≡ appended_part table rows }
{
    TableNet {
        table,
        updates: List::new(alloc),
        deletes: List::new(alloc),
        rows,
    }
}

fn add_version(seat: &mut Seat, part: TableNet) -> Result<(), OutOfMemory>
    ensures ok { OnOk result (seat.new ≡ with_version part seat.old) }
    ensures err { OnErr result (seat.new ≡ seat.old) }
{
    let mut made = seat.made.copy()?.into_vec();
    made.insert(0, part)?;
    seat.made = List::from_vec(made);
    Ok(())
}

/// A session makes a version.
pub fn make_version(seats: &mut Vec<Seat>, number: u32, part: TableNet) -> Result<(), OutOfMemory>
    ensures ok { OnOk result (seats.new.items ≡ with_seat seats.old.items number (with_version part)) }
    ensures err { OnErr result (seats.new.items ≡ seats.old.items) }
{
    let place = number as usize;
    if 0 < place && place <= seats.len() {
        add_version(&mut seats[place - 1], part)?;
    }
    Ok(())
}

/// A session's seat behind the commit that comes next, if it has a snapshot.
pub fn seat_behind_commit(
    alloc: Global,
    seats: &[Seat],
    number: u32,
    commits: &[Commit],
) -> Result<Option<Seat>, OutOfMemory>
    ensures { IfOk result (λ after. after ≡ committed_at (length commits.now) seats.now number) }
{
    let Some(seat) = seat_at(seats, number) else {
        return Ok(None);
    };
    let Some(live) = &seat.live else {
        return Ok(None);
    };
    let mut after = seat_after_reply(alloc, seat)?;
    after.live = Some(Snapshot {
        number: live.number,
        start: live.start,
        commit: Some(commits.len() as u64 + 1),
    });
    Ok(Some(after))
}
