//! Laws of histories of one thread. None of these functions does anything: what is proved is its
//! contract.
ghost use Rattle.dk_alone.specs.AnswerLaws.{AnswersAreLegal, AnswersByHand, AnswersHaveTheCalls};
ghost use Rattle.dk_alone.specs.AnswerLaws.{HistoriesAreAnswers, RepliesAreAnswers, RepliesAreOne};

/// Each list of lawful calls has a legal history of one thread, in which each call has its reply
/// and none tells a fault, a stop or want of memory: the one that answers them.
pub fn answers_are_legal()
    ensures { AnswersAreLegal }
{}

/// The history that answers a list of calls has exactly those calls.
pub fn answers_have_the_calls()
    ensures { AnswersHaveTheCalls }
{}

/// Such a history is the only one with its calls, but for the moments of receipts.
pub fn histories_are_answers()
    ensures { HistoriesAreAnswers }
{}

/// The history that answers a few calls, worked by hand.
pub fn answers_by_hand()
    ensures { AnswersByHand }
{}

/// The reply to a call is a function of the history before it and the call, but for moments, faults
/// and stops.
pub fn replies_are_answers()
    ensures { RepliesAreAnswers }
{}

/// No call has two replies that differ, but for moments, faults and stops.
pub fn replies_are_one()
    ensures { RepliesAreOne }
{}
