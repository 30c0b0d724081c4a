//! How a run ends, and the exit status that says so.
ghost use Rattle.std.specs.Prelude.{◌≡◌};
ghost use Rattle.dk_types.specs.Codes.{code_of};

use crate::damage::Damage;

/// How a run ended.
#[derive(Clone, Copy, Debug, PartialEq, Eq)]
pub enum Status {
    Done,
    /// The command words are none of the program's.
    Usage,
    /// The first line that is outside the script's grammar, counted from 1.
    BadLine { line: u64 },
    ReadFault,
    WriteFault,
    DiskFault,
    NotADatabase,
    VersionUnknown { found: u64 },
    Damaged(Damage),
    OutOfMemory,
    ScriptTooLong,
}

impl Status {
    /// The exit status of the program.
    pub fn code(&self) -> u8
        ensures { result ≡ code_of self.now }
    {
        match self {
            Status::Done => 0,
            Status::Usage => 2,
            Status::BadLine { .. } => 3,
            Status::ReadFault => 4,
            Status::WriteFault => 5,
            Status::DiskFault => 6,
            Status::NotADatabase => 7,
            Status::VersionUnknown { .. } => 8,
            Status::Damaged(_) => 9,
            Status::OutOfMemory => 10,
            Status::ScriptTooLong => 12,
        }
    }
}
