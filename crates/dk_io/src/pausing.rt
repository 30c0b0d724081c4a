//! Where a run may be held up.

/// A place of a run at which a [`Pause`] is asked.
#[derive(Clone, Copy, Debug, PartialEq, Eq)]
pub enum Point {
    /// Before a session's statement begins.
    BeforeStatement,
    /// Between two of a commit's stamps.
    BetweenStamps,
}

/// Something that may hold a session up at a point of its run, as a test does to bring two sessions into an order. It
/// has no answer.
pub trait Pause {
    fn at(&self, session: u32, point: Point);
}

/// Holds nobody up.
#[derive(Clone, Copy, Debug, PartialEq, Eq)]
pub struct NoPause;

impl Pause for NoPause {
    fn at(&self, _session: u32, _point: Point) {}
}
