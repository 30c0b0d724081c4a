//! Laws of what scripts print. None of these functions does anything: what is proved is its contract.
ghost use Rattle.dk_script.specs.OutputLaws.{OutputsAreOne};

/// What a script prints is a function of the script, where no reply tells a fault, a stop or want of memory.
pub fn outputs_are_one()
    ensures { OutputsAreOne }
{}
