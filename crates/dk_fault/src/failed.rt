//! A call to the outside that failed.

use thiserror::Error;

/// A call to the outside that failed. It tells no more: the object's count of faults has risen.
#[derive(Clone, Copy, Debug, PartialEq, Eq, Drop, Error)]
#[error("a call to the outside failed")]
pub struct Failed;
