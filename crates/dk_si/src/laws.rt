//! Laws of the machine. None of these functions does anything: what is proved is its contract.
ghost use Rattle.std.specs.Prelude.{◌*◌, ◌≤◌};
ghost use Rattle.dk_si.specs.declared.limits.TheConstants.{MAX_NEW_ROWS, SESSIONS, SPARE_ROWS};
ghost use Rattle.dk_si.specs.ShortStanding.{FlightsAreFew, ShortAndOne, ShortAnswersAlike};
ghost use Rattle.dk_si.specs.ShortStanding.{ShortStandsWell, StandingIsShort};
ghost use Rattle.dk_si.specs.Standing.{StandingAndOne, StandsWell};
ghost use Rattle.dk_si.specs.Laws.{CommitsStay, FrontsAreSteps, StateAndOne, StepsAndOne, StatesSinceAndOne};
ghost use Rattle.dk_si.specs.Laws.{ExchangesAndOne, FrontsAreLegal, NetStays, NetGains, SeesItsSnapshot};
ghost use Rattle.dk_si.specs.Laws.{SameRowsAreEqual, CountsItsRows, CommitsHaveStarts, SeesEarlierCommits};
ghost use Rattle.dk_si.specs.Laws.{FirstCommitterWins};

/// The state after the first n commits does not depend on what comes after the n-th.
#[tactic(auto, using(crate::proofs::GrowthLemmas::commits_stay))]
pub fn commits_stay()
    ensures { CommitsStay }
{}

/// The front of a list of steps is a list of steps.
#[tactic(auto, using(crate::proofs::GrowthLemmas::fronts_are_steps))]
pub fn fronts_are_steps()
    ensures { FrontsAreSteps }
{}

/// The state after one more entry.
#[tactic(auto, using(crate::proofs::ForwardLemmas::state_and_one))]
pub fn state_and_one()
    ensures { StateAndOne }
{}

/// A list of steps with one more entry.
#[tactic(auto, using(crate::proofs::ForwardLemmas::steps_and_one))]
pub fn steps_and_one()
    ensures { StepsAndOne }
{}

/// The states since a call after one more entry.
#[tactic(auto, using(crate::proofs::ForwardLemmas::states_since_and_one))]
pub fn states_since_and_one()
    ensures { StatesSinceAndOne }
{}

/// The calls with their replies after one more entry.
#[tactic(auto, using(crate::proofs::ExchangeLemmas::exchanges_and_one))]
pub fn exchanges_and_one()
    ensures { ExchangesAndOne }
{}

/// The front of a legal history is a legal history.
#[tactic(auto, using(crate::proofs::FrontLemmas::fronts_are_legal))]
pub fn fronts_are_legal()
    ensures { FrontsAreLegal }
{}

/// What is carried of stops and iterations goes on from one entry to the next.
#[tactic(auto, using(crate::proofs::StandingLemmas::standing_and_one))]
pub fn standing_and_one()
    ensures { StandingAndOne }
{}

/// Whether stops and iterations stand well over a list with one more entry is told by what was carried to it.
#[tactic(auto, using(crate::proofs::StandingLemmas::stands_well))]
pub fn stands_well()
    ensures { StandsWell }
{}

/// What is kept of it goes on from one entry to the next.
#[tactic(auto, using(crate::proofs::ShortLemmas::short_and_one))]
pub fn short_and_one()
    ensures { ShortAndOne }
{}

/// What is kept tells as much: whether stops and iterations stand well over a list with one more entry.
#[tactic(auto, using(crate::proofs::ShortLemmas::short_stands_well))]
pub fn short_stands_well()
    ensures { ShortStandsWell }
{}

/// Behind a list that stands well it decides as the full standing does.
#[tactic(auto, using(crate::proofs::ShortLemmas::short_answers_alike))]
pub fn short_answers_alike()
    ensures { ShortAnswersAlike }
{}

/// No more calls are in flight than there are sessions.
pub fn flights_are_few()
    ensures { FlightsAreFew }
{}

/// What is kept is short: of the calls in flight as many as there are sessions, of the iterations and the needs as many
/// as entries came since the first call in flight that they may concern.
pub fn standing_is_short()
    ensures { StandingIsShort }
{}

/// Behind a statement a transaction still has the rows that it had.
#[tactic(auto, using(crate::proofs::NetLemmas::net_stays))]
pub fn net_stays()
    ensures { NetStays }
{}

/// Behind a statement a transaction has the committed rows that the statement updates or deletes.
#[tactic(auto, using(crate::proofs::NetLemmas::net_gains))]
pub fn net_gains()
    ensures { NetGains }
{}

/// What a statement means in a transaction depends on the commits up to its start, and on its own changes, alone.
#[tactic(auto, using(crate::proofs::GrowthLemmas::sees_its_snapshot))]
pub fn sees_its_snapshot()
    ensures { SeesItsSnapshot }
{}

/// A query is answered by exactly the rows that it means.
#[tactic(auto, using(crate::proofs::MeaningLemmas::same_rows_are_equal))]
pub fn same_rows_are_equal()
    ensures { SameRowsAreEqual }
{}

/// The count of a change is the number of rows that it updates, deletes and adds.
pub fn counts_its_rows()
    ensures { CountsItsRows }
{}

/// Each commit is that of a transaction with a start.
#[tactic(auto, using(crate::proofs::FirstCommitterLemmas::commits_have_starts))]
pub fn commits_have_starts()
    ensures { CommitsHaveStarts }
{}

/// A transaction sees none of the commits from its own on.
pub fn sees_earlier_commits()
    ensures { SeesEarlierCommits }
{}

/// First committer wins: of two transactions that overlap and change one row, never both commit.
pub fn first_committer_wins()
    ensures { FirstCommitterWins }
{}

/// The rows that are kept free are as many as the transactions of all sessions may add.
pub fn spares_for_all()
    ensures { SESSIONS * MAX_NEW_ROWS ≤ SPARE_ROWS }
{}
