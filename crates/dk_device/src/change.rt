//! What a call makes of two files in memory.
ghost use Rattle.std.specs.Prelude.{◌≡◌, ◌⊎◌, ◌≤◌, ◌<◌, ◌+◌, ◌^◌, length, true, false, is_none, OnOk, OnErr};
ghost use Rattle.dk_device.specs.declared.device.FileId.TheVariants.{Main, Wal};
ghost use Rattle.dk_device.specs.declared.faults.Fault.TheVariants.{ListedMoment, NoMemory, LastMoment, PastEnd};
ghost use Rattle.dk_device.specs.Memory.{PassesEnd, is_listed, FaultShows};
ghost use Rattle.dk_device.specs.Replay.{effect, effect_if, effect_on};

use crate::calls::Request;
use crate::faults::Fault;
use crate::file::MemoryFile;
use crate::{FileId, MOST_BYTES};
use std::alloc::AllocError as OutOfMemory;

/// A call that is begun: which file it is for, and at which moment.
#[derive(Clone, Copy)]
pub(crate) struct Begun {
    pub file: FileId,
    pub moment: u64,
}

/// Does what a call asks for to its file.
fn apply(target: &mut MemoryFile, request: &Request) -> Result<(), OutOfMemory>
    ensures start { target.new.start ≡ target.old.start }
    ensures ok { OnOk result (target.new.bytes ≡ effect request.now target.old.bytes) }
    ensures err { OnErr result (target.new.bytes ≡ target.old.bytes) }
{
    match request {
        Request::Write { at, bytes } => target.write(*at as usize, bytes.as_slice()),
        Request::Cut { len } => target.cut(*len as usize),
        Request::Read { .. } | Request::Sync => Ok(()),
    }
}

fn passes_end(request: &Request) -> bool
    ensures yes { result ≡ true → PassesEnd request.now }
    ensures no { result ≡ false → PassesEnd request.now → ⊥ }
{
    match request {
        Request::Write { at, bytes } => {
            *at > MOST_BYTES || bytes.as_slice().len() as u64 > MOST_BYTES - *at
        }
        _ => false,
    }
}

/// Does what a call asks for, unless it is to fail.
fn attempt(target: &mut MemoryFile, failing: &[u64], now: u64, request: &Request) -> Option<Fault>
    ensures start { target.new.start ≡ target.old.start }
    ensures bytes { target.new.bytes ≡ effect_if (is_none result) request.now target.old.bytes }
    ensures shows { FaultShows failing.now now request.now result }
{
    if failing.contains(&now) {
        return Some(Fault::ListedMoment);
    }
    if passes_end(request) {
        return Some(Fault::PastEnd);
    }
    match apply(target, request) {
        Ok(()) => None,
        Err(_) => Some(Fault::NoMemory),
    }
}

/// Does what a call asks for to one of two files, unless it is to fail.
pub(crate) fn attempt_at(
    main: &mut MemoryFile,
    wal: &mut MemoryFile,
    failing: &[u64],
    begun: Begun,
    request: &Request,
) -> Option<Fault>
    ensures main_start { main.new.start ≡ main.old.start }
    ensures wal_start { wal.new.start ≡ wal.old.start }
    ensures main { main.new.bytes ≡
        effect_on (is_none result) Main begun.file request.now main.old.bytes }
    ensures wal { wal.new.bytes ≡
        effect_on (is_none result) Wal begun.file request.now wal.old.bytes }
    ensures shows { FaultShows failing.now begun.moment request.now result }
{
    match begun.file {
        FileId::Main => attempt(main, failing, begun.moment, request),
        FileId::Wal => attempt(wal, failing, begun.moment, request),
    }
}
