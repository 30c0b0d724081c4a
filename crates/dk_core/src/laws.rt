//! Laws of the core. None of these functions does anything: what is proved is its contract.
ghost use Rattle.std.specs.Prelude.{◌≡◌, ◌*◌};
ghost use Rattle.dk_si.specs.declared.limits.TheConstants.{GROUP_ROWS};
ghost use Rattle.dk_core.specs.declared.layout.TheConstants.{VECTOR_ROWS, VECTORS};
ghost use Rattle.dk_core.specs.Laws.{LegalOverEveryList, VersionsOverEveryList, OrderedOverEveryList, SnapshotsAreStable};

/// The entries of every list of events that the core allows are a legal history.
#[tactic(auto, using(crate::proofs::LegalLemmas::legal_over_every_list))]
pub fn legal_over_every_list()
    ensures { LegalOverEveryList }
{}

/// After every list of events that the core allows, no two snapshots have one number or one commit, each version is of
/// rows that were committed when its transaction began, and no two transactions put rows into groups at a time.
pub fn versions_over_every_list()
    ensures { VersionsOverEveryList }
{}

/// And no transaction has a newer version of a row that it deleted.
pub fn ordered_over_every_list()
    ensures { OrderedOverEveryList }
{}

/// After such a list every further event of another session, and every one that has no session, leaves what a session
/// reads as it was.
#[tactic(auto, using(crate::proofs::SnapshotLemmas::snapshots_are_stable))]
pub fn snapshots_are_stable()
    ensures { SnapshotsAreStable }
{}

/// The vectors of a group have all of its rows.
pub fn vectors_fill_a_group()
    ensures { VECTOR_ROWS * VECTORS ≡ GROUP_ROWS }
{}
