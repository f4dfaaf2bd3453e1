// Which calls of one kind are to fail.
ghost use Rattle.std.specs.Prelude.{◌≡◌, is_err, OnErr, OnOk};
ghost use Rattle.psi_base.specs.Outside.{Rose};
ghost use Rattle.psi_base.specs.State.{calls_of, no_calls, with_listed, with_call, with_fault, next_listed};

use crate::{Failed, NoMemory};
use std::alloc::Global;
use std::collections::BTreeSet;

/// The calls of one kind: which of them are to fail, and how many were made and failed.
#[derive(Drop)]
pub struct Schedule {
    listed: BTreeSet<u64>,
    made: u64,
    faults: u64,
}

impl Schedule {
    /// No call is listed, and none was made.
    pub fn new(alloc: Global) -> Schedule
        ensures { calls_of result ≡ no_calls }
    {
        Schedule {
            listed: BTreeSet::new(alloc),
            made: 0,
            faults: 0,
        }
    }

    /// Lists that the nth call fails.
    pub fn list(&mut self, nth: u64) -> Result<(), NoMemory>
        ensures listed { OnOk result (calls_of self.new ≡ with_listed (calls_of self.old) nth) }
        ensures refused { OnErr result (calls_of self.new ≡ calls_of self.old) }
    {
        self.listed.insert(nth)?;
        Ok(())
    }

    /// Counts a call, which fails where it is listed.
    pub fn begin(&mut self) -> Result<(), Failed>
        ensures answer { is_err result ≡ next_listed (calls_of self.old) }
        ensures made { OnOk result (calls_of self.new ≡ with_call (calls_of self.old)) }
        ensures failed { OnErr result (calls_of self.new ≡ with_fault (with_call (calls_of self.old))) }
        ensures rose { OnErr result (Rose (calls_of self.old).faults (calls_of self.new).faults) }
    {
        let call = self.made;
        self.made = call.saturating_add(1);
        if self.listed.contains(&call) {
            Err(self.raise())
        } else {
            Ok(())
        }
    }

    /// Counts a fault.
    pub fn raise(&mut self) -> Failed
        ensures left { calls_of self.new ≡ with_fault (calls_of self.old) }
        ensures rose { Rose (calls_of self.old).faults (calls_of self.new).faults }
    {
        self.faults = self.faults.saturating_add(1);
        Failed
    }
}
