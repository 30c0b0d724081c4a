//! Stamps and snapshots.
ghost use Rattle.std.specs.Prelude.{◌≡◌};
ghost use Rattle.dk_stamp.specs.Sees.{sees, is_pending};

/// The stamp of transaction 0. Stamps below it are commit numbers.
pub const FIRST_ID: u64 = 1 << 62;

/// The stamp of what did not happen. No transaction has it.
pub const NEVER: u64 = u64::MAX;

/// How many sessions there are at most, and so how many commits can be pending at once.
pub const SESSIONS: usize = 32;

/// A commit that has its number and whose versions are not all stamped with it.
#[derive(Clone, Copy, Debug, PartialEq, Eq)]
pub struct Pending {
    pub id: u64,
    pub number: u64,
}

/// What a transaction sees: what it did itself, the commits up to `start`, and of these the ones that were pending
/// when it began, by their transactions. An unused entry of `committing` has the id 0, which every snapshot sees.
#[derive(Clone, Copy, Debug, PartialEq, Eq)]
pub struct Snapshot {
    pub id: u64,
    pub start: u64,
    pub committing: [Pending; 32],
}

impl Snapshot {
    /// Whether the snapshot sees what has this stamp.
    pub fn sees(&self, stamp: u64) -> bool
        ensures { result ≡ sees self.now stamp }
    {
        stamp == self.id || stamp <= self.start || is_pending(&self.committing, stamp)
    }
}

/// Whether an entry has this stamp as its transaction's.
fn is_pending(committing: &[Pending], stamp: u64) -> bool
    ensures { result ≡ is_pending committing.now stamp }
{
    committing.iter().any(|pending| pending.id == stamp)
}
