//! What a statement does with its session's transaction.
ghost use Rattle.std.specs.Prelude.{◌≡◌};
ghost use Rattle.dk_si.specs.Machine.{kind_of, has_own, begins_one};

use dk_types::Statement;

/// The statements as the machine tells them apart.
#[derive(Clone, Copy, Debug)]
pub enum Kind {
    Begin,
    Commit,
    Rollback,
    Checkpoint,
    Create,
    Select,
    /// INSERT, COPY, UPDATE and DELETE.
    Change,
}

impl Kind {
    pub fn of(statement: &Statement) -> Kind
        ensures { result ≡ kind_of statement.now }
    {
        match statement {
            Statement::Create { .. } => Kind::Create,
            Statement::Insert { .. }
            | Statement::InsertSelect { .. }
            | Statement::Copy { .. }
            | Statement::Update { .. }
            | Statement::Delete { .. } => Kind::Change,
            Statement::Select { .. } => Kind::Select,
            Statement::Begin => Kind::Begin,
            Statement::Commit => Kind::Commit,
            Statement::Rollback => Kind::Rollback,
            Statement::Checkpoint => Kind::Checkpoint,
        }
    }

    /// Whether it has a transaction of its own outside one.
    pub fn has_own(self) -> bool
        ensures { result ≡ has_own self }
    {
        matches!(self, Kind::Create | Kind::Select | Kind::Change)
    }

    /// Whether a transaction begins with it outside one.
    pub fn begins_one(self) -> bool
        ensures { result ≡ begins_one self }
    {
        matches!(self, Kind::Begin) || self.has_own()
    }
}
