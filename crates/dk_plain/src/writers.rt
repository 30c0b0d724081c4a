//! Which commits changed a row.
ghost use Rattle.std.specs.Prelude.{◌≡◌};
ghost use Rattle.std.specs.List.{list_any};
ghost use Rattle.dk_si.specs.HeldRows.{commit_has, some_commit_has};

use crate::nets::net_has;
use dk_types::Commit;

/// Whether a commit changed the row.
pub fn commit_has(table: u32, row: u64, commit: &Commit) -> bool
    ensures { result ≡ commit_has table row commit.now }
{
    match commit {
        Commit::Create { .. } => false,
        Commit::Change { net } => net_has(net.as_slice(), table, row),
    }
}

/// Whether one of these commits changed the row.
pub fn some_commit_has(commits: &[Commit], table: u32, row: u64) -> bool
    ensures { result ≡ some_commit_has commits.now table row }
{
    commits.iter().any(|commit| commit_has(table, row, commit))
}
