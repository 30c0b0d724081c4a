//! Why a call of a disk in memory failed, and how often.
ghost use Rattle.std.specs.Prelude.{◌≡◌};

use dk_fault::next_count;

/// How often calls have failed, by their cause. A count stands still at its last value.
#[derive(Clone, Copy, Debug, Drop)]
pub struct Faults {
    /// Calls at a listed moment.
    pub listed_moments: u64,
    /// Calls that found no memory.
    pub refusals: u64,
    /// Calls at the last moment.
    pub last_moments: u64,
    /// Writes that would end past the greatest length.
    pub past_ends: u64,
}

/// Why a call failed.
#[derive(Clone, Copy, Debug, Drop)]
pub enum Fault {
    ListedMoment,
    NoMemory,
    LastMoment,
    PastEnd,
}

impl Faults {
    ghost use Rattle.dk_device.specs.Memory.{with_fault, total};
    ghost use Rattle.dk_fault.specs.Causes.{Rose};

    pub(crate) fn none() -> Faults
        ensures { total result ≡ 0 }
    {
        Faults {
            listed_moments: 0,
            refusals: 0,
            last_moments: 0,
            past_ends: 0,
        }
    }

    pub(crate) fn count(&mut self, fault: Fault)
        ensures with_fault { self.new ≡ with_fault fault self.old }
        ensures rose { Rose (total self.old) (total self.new) }
    {
        match fault {
            Fault::ListedMoment => self.listed_moments = next_count(self.listed_moments),
            Fault::NoMemory => self.refusals = next_count(self.refusals),
            Fault::LastMoment => self.last_moments = next_count(self.last_moments),
            Fault::PastEnd => self.past_ends = next_count(self.past_ends),
        }
    }
}
