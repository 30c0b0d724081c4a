//! Laws of aggregates. None of these functions does anything: what is proved is its contract.
ghost use Rattle.dk_eval.specs.AggregateLaws.{CountsArePresent, SumsAreExact};

/// count is how many values are not null.
#[tactic(auto, using(crate::proofs::AggregateLemmas::counts_are_present))]
pub fn counts_are_present()
    ensures { CountsArePresent }
{}

/// sum is the sum of the numbers among the values, in any range, and null where all values are null.
#[tactic(auto, using(crate::proofs::AggregateLemmas::sums_are_exact))]
pub fn sums_are_exact()
    ensures { SumsAreExact }
{}
