//! What a question to the machine is asked about.
use dk_si::database::Table;
use dk_si::machine::OpenTransaction;
use dk_types::Commit;

/// The opened database and the commits behind it.
#[derive(Clone, Copy)]
pub struct CommitLog<'a> {
    pub opened: &'a [Table],
    pub commits: &'a [Commit],
}

/// An open transaction, and the commits so far.
#[derive(Clone, Copy)]
pub struct Inside<'a> {
    pub log: CommitLog<'a>,
    pub active: &'a OpenTransaction,
}
