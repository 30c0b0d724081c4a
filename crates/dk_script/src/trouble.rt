//! What the replies of a run tell went wrong.
ghost use Rattle.std.specs.Prelude.{◌≡◌};
ghost use Rattle.dk_script.specs.Histories.{trouble_with, trouble_behind, status_for};

use dk_types::{Damage, Refusal, Reply, Status};

/// The gravest of what went wrong: a fault of the disk goes before damage, the first damage before others, and damage
/// before want of memory.
#[derive(Clone, Copy, Debug, PartialEq, Eq)]
pub enum Trouble {
    Nothing,
    Want,
    Damage(Damage),
    Fault,
}

/// The gravest with one more refusal.
fn trouble_with(before: Trouble, refusal: &Refusal) -> Trouble
    ensures { result ≡ trouble_with before refusal.now }
{
    match (refusal, before) {
        (Refusal::DiskFault { .. }, _) => Trouble::Fault,
        (Refusal::Damaged(damage), Trouble::Nothing) => Trouble::Damage(*damage),
        (Refusal::Damaged(damage), Trouble::Want) => Trouble::Damage(*damage),
        (Refusal::OutOfMemory, Trouble::Nothing) => Trouble::Want,
        _ => before,
    }
}

/// The gravest with one more reply.
pub fn trouble_behind(before: Trouble, reply: &Reply) -> Trouble
    ensures { result ≡ trouble_behind before reply.now }
{
    match reply {
        Reply::Refused(refusal) => trouble_with(before, refusal),
        _ => before,
    }
}

/// The status of a run that came to the end of its script.
pub fn status_for(trouble: Trouble) -> Status
    ensures { result ≡ status_for trouble }
{
    match trouble {
        Trouble::Nothing => Status::Done,
        Trouble::Want => Status::OutOfMemory,
        Trouble::Damage(damage) => Status::Damaged(damage),
        Trouble::Fault => Status::DiskFault,
    }
}
