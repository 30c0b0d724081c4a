//! What a call on a row leaves of what a reader sees of it. None of these functions does anything: what is proved is
//! its contract. A reader is any test on stamps.
ghost use Rattle.dk_vector.specs.HidingLaws.{ReadersAgree, UpdateIsHidden, DeletionIsHidden, AppendIsHidden, OwnUpdateIsRead, UndoIsHidden, UndoOfDeletionIsHidden, UndoOfAppendIsHidden, StampingIsHidden, StampingOfDeletionIsHidden, StampingOfAppendIsHidden, DropIsHidden};

/// Readers that see the stamps that are there alike read a row alike.
#[tactic(auto, using(crate::proofs::HidingLemmas::readers_agree))]
pub fn readers_agree()
    ensures { ReadersAgree }
{}

/// What a transaction does whose stamp the reader doesn't see is hidden.
#[tactic(auto, using(crate::proofs::HidingLemmas::update_is_hidden, crate::proofs::HidingLemmas::deletion_is_hidden, crate::proofs::HidingLemmas::append_is_hidden))]
pub fn changes_are_hidden()
    ensures update { UpdateIsHidden }
    ensures deletion { DeletionIsHidden }
    ensures append { AppendIsHidden }
{}

/// A transaction reads its own update.
#[tactic(auto, using(crate::proofs::HidingLemmas::own_update_is_read))]
pub fn own_updates_are_read()
    ensures { OwnUpdateIsRead }
{}

/// Undoing what the reader doesn't see is hidden.
#[tactic(auto, using(crate::proofs::HidingLemmas::undo_is_hidden, crate::proofs::HidingLemmas::undo_of_deletion_is_hidden, crate::proofs::HidingLemmas::undo_of_append_is_hidden))]
pub fn undoing_is_hidden()
    ensures update { UndoIsHidden }
    ensures deletion { UndoOfDeletionIsHidden }
    ensures append { UndoOfAppendIsHidden }
{}

/// Stamping is hidden from a reader that sees the transaction's identifier and its commit's number alike.
#[tactic(auto, using(crate::proofs::HidingLemmas::stamping_is_hidden, crate::proofs::HidingLemmas::stamping_of_deletion_is_hidden, crate::proofs::HidingLemmas::stamping_of_append_is_hidden))]
pub fn stamping_is_hidden()
    ensures update { StampingIsHidden }
    ensures deletion { StampingOfDeletionIsHidden }
    ensures append { StampingOfAppendIsHidden }
{}

/// Dropping nodes is hidden from a reader that sees all stamps up to the bound.
#[tactic(auto, using(crate::proofs::HidingLemmas::drop_is_hidden))]
pub fn dropping_is_hidden()
    ensures { DropIsHidden }
{}
