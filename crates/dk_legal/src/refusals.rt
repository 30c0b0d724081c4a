//! What a refusal says, as the machine's step tells it apart.
ghost use Rattle.std.specs.Prelude.{◌≡◌};
ghost use Rattle.dk_si.specs.Meaning.{is_text_refusal, is_same_refusal};
ghost use Rattle.dk_si.specs.ReplyTests.{is_refused, is_no_transaction, is_in_transaction, is_aborted, is_no_memory};
ghost use Rattle.dk_si.specs.ReplyTests.{is_fault, is_stopped, is_spent_refusal};

use dk_types::{Commit, Refusal, Reply};

/// Whether a call is refused that needs a transaction, where there is none.
pub fn has_no_transaction(reply: &Reply) -> bool
    ensures { result ≡ is_refused is_no_transaction reply.now }
{
    matches!(reply, Reply::Refused(Refusal::NoTransaction))
}

/// Whether a call is refused that may not stand in a transaction.
pub fn is_in_transaction(reply: &Reply) -> bool
    ensures { result ≡ is_refused is_in_transaction reply.now }
{
    matches!(reply, Reply::Refused(Refusal::InTransaction))
}

/// Whether a call is refused in a transaction that was aborted.
pub fn is_aborted(reply: &Reply) -> bool
    ensures { result ≡ is_refused is_aborted reply.now }
{
    matches!(reply, Reply::Refused(Refusal::Aborted))
}

/// Whether a call is refused for want of memory.
pub fn has_no_memory(reply: &Reply) -> bool
    ensures { result ≡ is_refused is_no_memory reply.now }
{
    matches!(reply, Reply::Refused(Refusal::OutOfMemory))
}

/// Whether a text is refused that is outside the grammar, which ends at this byte.
pub fn is_outside_grammar(at: u64, reply: &Reply) -> bool
    ensures { result ≡ is_refused (is_text_refusal at) reply.now }
{
    match reply {
        Reply::Refused(Refusal::Syntax { at: place }) => *place == at,
        _ => false,
    }
}

/// Whether a call is refused since no further transaction can begin.
pub fn is_spent(reply: &Reply) -> bool
    ensures { result ≡ is_refused is_spent_refusal reply.now }
{
    match reply {
        Reply::Refused(Refusal::Exhausted(numbers)) => numbers.iteration == 0,
        _ => false,
    }
}

/// Whether a list of entries can't tell its cause.
pub fn is_fault(refusal: &Refusal) -> bool
    ensures { result ≡ is_fault refusal.now }
{
    matches!(
        refusal,
        Refusal::DiskFault { .. } | Refusal::Damaged(_) | Refusal::OutOfMemory
    )
}

/// Whether the engine is stopped, and this is the number that the next commit would have had.
pub fn is_stopped(commits: &[Commit], refusal: &Refusal) -> bool
    ensures { result ≡ is_stopped commits.now refusal.now }
{
    match refusal {
        Refusal::Stopped { first } => *first == commits.len() as u64 + 1,
        _ => false,
    }
}

/// Whether two refusals of a statement by its meaning or its size are the same.
pub fn is_same_refusal(refusal: &Refusal, other: &Refusal) -> bool
    ensures { result ≡ is_same_refusal refusal.now other.now }
{
    match (refusal, other) {
        (Refusal::NoTable { at }, Refusal::NoTable { at: other }) => *at == *other,
        (Refusal::NoColumn { at }, Refusal::NoColumn { at: other }) => *at == *other,
        (Refusal::TypeMismatch { at }, Refusal::TypeMismatch { at: other }) => *at == *other,
        (Refusal::SameColumn { at }, Refusal::SameColumn { at: other }) => *at == *other,
        (Refusal::NotGrouped { at }, Refusal::NotGrouped { at: other }) => *at == *other,
        (Refusal::TableExists { at }, Refusal::TableExists { at: other }) => *at == *other,
        (Refusal::TooManyTables, Refusal::TooManyTables) => true,
        (Refusal::OutOfRange { row }, Refusal::OutOfRange { row: other }) => *row == *other,
        (Refusal::Unsupported, Refusal::Unsupported) => true,
        (
            Refusal::BadField { row, field },
            Refusal::BadField {
                row: other_row,
                field: other_field,
            },
        ) => *row == *other_row && *field == *other_field,
        (
            Refusal::TooLarge { bytes, rows },
            Refusal::TooLarge {
                bytes: other_bytes,
                rows: other_rows,
            },
        ) => *bytes == *other_bytes && *rows == *other_rows,
        _ => false,
    }
}
