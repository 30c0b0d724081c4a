//! Which calls of a source or a sink in memory fail.
ghost use Rattle.std.specs.Prelude.{◌≡◌, ◌≤◌, ◌↔◌, IsTrue, Contains};
ghost use Rattle.dk_fault.specs.Causes.{Rose, HasCauseIf};
ghost use Rattle.dk_fault.specs.Counts.{next_count};
ghost use Rattle.dk_io.specs.Memory.{after_call, fresh_plan};

use dk_fault::{Failed, next_count};
use std::marker::Model;

/// The calls that fail, counted from 0, the most bytes of a call, and how many calls and faults there were. The counts
/// stand still at 2^64 - 1.
#[derive(Debug, Drop)]
pub struct CallPlan {
    failing: Vec<u64>,
    piece: usize,
    calls: u64,
    faults: u64,
}

impl Model for CallPlan {
    ghost use Rattle.dk_io.specs.Memory.{CallPlan};

    ghost Value = { CallPlan };

    ghost view = { λ plan. record {
      failing = plan.failing.items;
      piece = plan.piece;
      calls = plan.calls;
      faults = plan.faults;
    } };
}

impl CallPlan {
    /// No call was made.
    pub fn new(failing: Vec<u64>, piece: usize) -> CallPlan
        ensures { result ≡ fresh_plan failing.items piece }
    {
        CallPlan {
            failing,
            piece,
            calls: 0,
            faults: 0,
        }
    }

    /// The most bytes of a call.
    pub fn piece(&self) -> usize
        ensures { result ≡ self.now.piece }
    {
        self.piece
    }

    /// Counts a call, and says whether it fails: then it counts a fault too.
    pub fn begin_call(&mut self) -> bool
        ensures listed { IsTrue result ↔ Contains self.old.failing self.old.calls }
        ensures counted { self.new ≡ after_call self.old result }
        ensures cause { HasCauseIf self.old.faults self.new.faults (IsTrue result) }
    {
        let call = self.calls;
        self.calls = next_count(call);
        let fails = self.failing.contains(&call);
        if fails {
            self.faults = next_count(self.faults);
        }
        fails
    }

    /// Counts a fault.
    pub fn fail(&mut self) -> Failed
        ensures counted { self.new ≡ record self.old { faults = next_count self.old.faults } }
        ensures later { self.old.faults ≤ self.new.faults }
        ensures rose { Rose self.old.faults self.new.faults }
    {
        self.faults = next_count(self.faults);
        Failed
    }
}
