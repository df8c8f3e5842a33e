// The calls of a source or a sink in memory, some of which fail.
ghost use Rattle.std.specs.Prelude.{◌≡◌, ◌≤◌, ◌↔◌, IsTrue};
ghost use Rattle.sy_io.specs.Calls.{NameSameCalls, NextIsListed, called, faulted};

use crate::Failed;
use std::marker::Model;

#[derive(Drop)]
pub(crate) struct CallLog {
    made: u64,
    failing: Vec<u64>,
    faults: u64,
}

impl Model for CallLog {
    ghost use Rattle.sy_io.specs.Calls.{Calls, IsInOrder};

    ghost Value = { Calls };

    ghost view = { λ c. record { made = c.made; failing = c.failing.items; faults = c.faults } };

    ghost invariant = { λ c. IsInOrder c.failing.items };
}

impl CallLog {
    // No call was made yet. The numbers of the calls that are to fail come in any order.
    pub(crate) fn new(mut failing: Vec<u64>) -> CallLog
        ensures made { result.made ≡ 0 }
        ensures failing { NameSameCalls result.failing failing.items }
        ensures faults { result.faults ≡ 0 }
    {
        failing.sort_unstable();
        CallLog {
            made: 0,
            failing,
            faults: 0,
        }
    }

    // Counts a call, and answers whether it is one that fails.
    pub(crate) fn next_fails(&mut self) -> bool
        ensures listed { IsTrue result ↔ NextIsListed self.old }
        ensures counted { self.new ≡ called self.old }
    {
        let number = self.made.checked_add(1);
        self.made = self.made.saturating_add(1);
        match number {
            Some(number) => self.failing.binary_search(&number).is_ok(),
            None => false,
        }
    }

    pub(crate) fn count_fault(&mut self) -> Failed
        ensures counted { self.new ≡ faulted self.old }
        ensures later { self.old.faults ≤ self.new.faults }
    {
        self.faults = self.faults.saturating_add(1);
        Failed
    }

    pub(crate) fn faults(&self) -> u64
        ensures { result ≡ self.now.faults }
    {
        self.faults
    }
}
