//! Laws of the rows that nets and commits change. None of these functions does anything: what is
//! proved is its contract.
ghost use Rattle.dk_laws.specs.FittingNets.{RowsFit, CommitsFit, NetsFit};

/// Where the rows of the opened database fit their tables, so do those after each number of
/// commits.
pub fn rows_fit()
    ensures { RowsFit }
{}

/// Each commit fits the database that it is applied to: its ids ascend, share none and are of rows
/// that are there, and its new values fit.
pub fn commits_fit()
    ensures { CommitsFit }
{}

/// The net of each open transaction fits the database at its start in the same way.
pub fn nets_fit()
    ensures { NetsFit }
{}
