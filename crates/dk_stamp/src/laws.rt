//! What snapshots see alike. None of these functions does anything: what is proved is its contract.
ghost use Rattle.dk_stamp.specs.Laws.{SnapshotsAgree, StampingIsSeenAlike, NeverIsUnseen};

/// Two transactions of the same start see what neither of them did alike.
pub fn snapshots_agree()
    ensures { SnapshotsAgree }
{}

/// Whether a version of another transaction has its commit number yet makes no difference.
pub fn stamping_is_seen_alike()
    ensures { StampingIsSeenAlike }
{}

/// What did not happen is seen by no snapshot.
pub fn never_is_unseen()
    ensures { NeverIsUnseen }
{}
