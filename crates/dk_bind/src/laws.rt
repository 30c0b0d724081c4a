//! Which refusals binding has. The function does nothing: what is proved is its contract.
ghost use Rattle.dk_bind.specs.Laws.{StatementsAreRefusedByBinding};

/// A statement that isn't bound has one of the seven refusals of binding.
pub fn statements_are_refused_by_binding()
    ensures { StatementsAreRefusedByBinding }
{}
