//! How large a transaction may be.
ghost use Rattle.std.specs.Prelude.{◌≡◌, IfOk};
ghost use Rattle.dk_si.specs.Size.{has_full_group, is_too_large, size_refusal};

use crate::weights::{new_rows, weight};
use dk_si::limits::{GROUP_ROWS, MAX_NEW_ROWS, MAX_WEIGHT};
use dk_types::{OutOfMemory, Refusal, TableNet};
use std::alloc::Global;

/// Whether a transaction has a row group of new rows of one table.
fn has_full_group(net: &[TableNet]) -> bool
    ensures { result ≡ has_full_group net.now }
{
    net.iter().any(|part| GROUP_ROWS <= part.rows.len())
}

/// Why a transaction may not have a net, if it may not for its size.
pub fn size_refusal(alloc: Global, net: &[TableNet]) -> Result<Option<Refusal>, OutOfMemory>
    ensures { IfOk result (λ refusal. refusal ≡ size_refusal net.now) }
{
    if has_full_group(net) {
        return Ok(Some(Refusal::Unsupported));
    }
    let bytes = weight(alloc, net)?;
    let rows = new_rows(net);
    if MAX_WEIGHT < bytes || MAX_NEW_ROWS < rows {
        return Ok(Some(Refusal::TooLarge { bytes, rows }));
    }
    Ok(None)
}
