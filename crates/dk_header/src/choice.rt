//! Which of the two database headers is current.
ghost use Rattle.std.specs.Prelude.{◌≡◌};
ghost use Rattle.dk_header.specs.Layout.{higher_of, current_of, choice_of};

use crate::decode::read_twin;
use crate::header::{Current, DbHeader, HEADER_BYTES};
use dk_types::Damage;

/// The one of two open headers with the higher iteration.
fn higher(first: DbHeader, second: DbHeader) -> Result<Current, Damage>
    ensures { result ≡ higher_of first second }
{
    if first.iteration == second.iteration {
        return Err(Damage::SameIteration {
            iteration: first.iteration,
        });
    }
    if second.iteration < first.iteration {
        return Ok(Current {
            twin: 0,
            header: first,
            other_open: true,
        });
    }
    Ok(Current {
        twin: 1,
        header: second,
        other_open: true,
    })
}

/// The current one of the headers whose gates are open.
fn current(first: Option<DbHeader>, second: Option<DbHeader>) -> Result<Current, Damage>
    ensures { result ≡ current_of first second }
{
    match (first, second) {
        (None, None) => Err(Damage::NoGate),
        (Some(header), None) => Ok(Current {
            twin: 0,
            header,
            other_open: false,
        }),
        (None, Some(header)) => Ok(Current {
            twin: 1,
            header,
            other_open: false,
        }),
        (Some(first), Some(second)) => higher(first, second),
    }
}

/// The current header of the two, or what is wrong with them: first of twin 0, then of twin 1, then of both.
pub fn choose(h0: &[u8; HEADER_BYTES], h1: &[u8; HEADER_BYTES]) -> Result<Current, Damage>
    ensures { result ≡ choice_of h0.now h1.now }
{
    let first = read_twin(0, h0)?;
    let second = read_twin(1, h1)?;
    current(first, second)
}
