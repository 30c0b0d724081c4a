//! What the sort of lines is. None of these functions does anything: what is proved is its contract.
ghost use Rattle.dk_query.specs.Laws.{SortIsASort, NoOtherSort};

/// The sorted lines are the lines, in the order of the keys, and those that tie stand as they stood.
pub fn sort_is_a_sort()
    ensures { SortIsASort }
{}

/// No other list of lines is in that order with those that tie as they stood.
pub fn no_other_sort()
    ensures { NoOtherSort }
{}
