//! What a snapshot sees of the transactions that are alive when it is taken. None of these functions does anything:
//! what is proved is its contract.
ghost use Rattle.dk_manager.specs.Laws.{PendingIsSeenAlike, LaterIsSeenAlike};

/// Of a pending commit a snapshot sees what is stamped and what isn't yet.
pub fn pending_is_seen_alike()
    ensures { PendingIsSeenAlike }
{}

/// Of a commit that has its number later it sees neither.
pub fn later_is_seen_alike()
    ensures { LaterIsSeenAlike }
{}
