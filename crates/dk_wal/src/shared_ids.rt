//! Whether two ascending lists of ids share one.
ghost use Rattle.std.specs.Prelude.{◌≡◌};
ghost use Rattle.dk_wal.specs.Ascending.{Ascends, first, itself};
ghost use Rattle.dk_wal.specs.Payload.{shares_id};

use dk_types::Row;

/// Whether a row got new values that also went. Both lists are walked once, side by side.
pub(crate) fn shares_id(updates: &[(u64, Row)], deletes: &[u64]) -> bool
    requires updates { Ascends first updates.now }
    requires deletes { Ascends itself deletes.now }
    ensures { result ≡ shares_id updates.now deletes.now }
{
    let mut left = updates;
    let mut others = deletes;
    'ids: while let [delete, deletes @ ..] = others {
        let [update, updates @ ..] = left else {
            return false;
        };
        if update.0 == *delete {
            return true;
        }
        if update.0 < *delete {
            left = updates;
        } else {
            others = deletes;
        }
    }
    false
}
