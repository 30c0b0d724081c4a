//! The program: it hands its words, standard input and standard output to the script runner, and ends with the
//! status.
//!
//! The first word is the path of the database, which is not opened yet: the tables are in memory. It stands on
//! `dk_script`, and proves nothing of its own.
#![tactic(auto)]

use dk_device::MemoryDisk;
use dk_io::{NoPause, StdStream};
use dk_script::serve::serve;
use dk_types::Status;
use std::alloc::AllocError;
use std::env::{self, Args};
use std::io::{self, ErrorKind};
use std::process::ExitCode;

/// Carries out a command on a database in memory.
fn command(rt: &HostRuntime, words: &[String]) -> Status {
    let alloc = rt.alloc();
    let mut source = StdStream::source(rt.reader());
    let mut sink = StdStream::sink(io::writer(rt));
    let disk = MemoryDisk::new(Vec::new(alloc), Vec::new(alloc), Vec::new(alloc));
    let (status, _disk) = serve(alloc, words, &mut source, &mut sink, disk, &NoPause);
    status
}

/// Passes over the program's name and the path, and carries out the words behind them.
fn command_of(rt: &HostRuntime, mut args: Args) -> Status {
    let _program = args.next();
    let _path = args.next();
    let words: Result<Vec<String>, AllocError> = args.collect(rt.alloc());
    match words {
        Ok(words) => command(rt, words.as_slice()),
        Err(_) => without_memory(rt),
    }
}

/// What the program does where it finds no memory for its words.
fn without_memory(rt: &HostRuntime) -> Status {
    // The status tells it also where the line cannot be written.
    let _ = rt.println("out of memory");
    Status::OutOfMemory
}

fn main(rt: HostRuntime) -> ExitCode {
    let status = match env::args(&rt) {
        Ok(args) => command_of(&rt, args),
        Err(e) if e.kind() == ErrorKind::OutOfMemory => without_memory(&rt),
        // Words that are no text are none of the program's.
        Err(_) => command(&rt, &[]),
    };
    ExitCode::from(status.code())
}
