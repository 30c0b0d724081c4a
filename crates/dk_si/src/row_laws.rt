//! A law of the rows that a statement changes. The function does nothing: what is proved is its contract.
ghost use Rattle.dk_si.specs.RowLaws.{ChangedRowsAreThere};

/// A statement updates and deletes rows that are there.
pub fn changed_rows_are_there()
    ensures { ChangedRowsAreThere }
{}
