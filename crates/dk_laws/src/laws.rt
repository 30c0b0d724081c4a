//! What replies are, and what a session is beside others. None of these functions does anything:
//! what is proved is its contract.
ghost use Rattle.dk_laws.specs.ConflictLaws.{ConflictsHaveCauses};
ghost use Rattle.dk_laws.specs.KindLaws.{MeaningsSuitKinds, RefusalsMayBeReplied};
ghost use Rattle.dk_laws.specs.KindLaws.{SizesMayBeReplied};
ghost use Rattle.dk_laws.specs.ReceiptLaws.{ReceiptsCountCommits};
ghost use Rattle.dk_laws.specs.SessionLaws.{OthersLeaveASession, OthersLeaveAMeaning};

/// A SELECT means rows, a change a change, a creation a creation, each or a refusal, and all others
/// mean nothing.
pub fn meanings_suit_kinds()
    ensures { MeaningsSuitKinds }
{}

/// Each refusal that a statement may mean may be replied.
pub fn refusals_may_be_replied()
    ensures { RefusalsMayBeReplied }
{}

/// Each refusal that a net may have for its size may be replied.
#[tactic(auto, using(crate::proofs::KindLemmas::sizes_may_be_replied))]
pub fn sizes_may_be_replied()
    ensures { SizesMayBeReplied }
{}

/// Entries of other sessions leave a session as it was.
#[tactic(auto, using(crate::proofs::SessionLemmas::others_leave_a_session))]
pub fn others_leave_a_session()
    ensures { OthersLeaveASession }
{}

/// What a statement means in an open transaction stays, whatever other sessions do.
pub fn others_leave_a_meaning()
    ensures { OthersLeaveAMeaning }
{}

/// Receipts are numbered 1, 2, 3 .., and there are as many as commits.
#[tactic(auto, using(crate::proofs::ReceiptLemmas::receipts_count_commits))]
pub fn receipts_count_commits()
    ensures { ReceiptsCountCommits }
{}

/// A conflict names a row that the statement changes, and a commit above its start or another
/// session's transaction that held it since the call.
pub fn conflicts_have_causes()
    ensures { ConflictsHaveCauses }
{}
