ghost use Rattle.std.specs.Prelude.{◌≡◌, ◌||◌, IfOk, is_err, if◌then◌else◌};
ghost use Rattle.up_outside.specs.Cause.{HasCause};
ghost use Rattle.up_outside.specs.InMemory.{counted, is_listed};

use crate::Failed;
use std::alloc::Global;
use up_num::{Items, Memory};

/// Which calls on an object in memory are to fail, counted from 1, and how many failed.
#[derive(Debug, Drop)]
pub struct Plan {
    pub fail: Items<u32>,
    pub calls: u64,
    pub faults: u64,
}

impl Plan {
    /// A plan under which the calls with these numbers fail.
    pub fn new(alloc: Global, fail: &[u32]) -> Result<Self, Memory>
        ensures { IfOk result (λ made. made ≡ record { fail = fail.now; calls = 0; faults = 0 }) }
    {
        let fail = Items::from_slice(alloc, fail)?;
        Ok(Plan {
            fail,
            calls: 0,
            faults: 0,
        })
    }

    /// Counts a call, which fails where the object is full for it or where it is listed.
    pub fn begin(&mut self, full: bool) -> Result<(), Failed>
        ensures planned { is_err result ≡ (full || is_listed self.old.fail (counted self.old.calls)) }
        ensures same { self.new.fail ≡ self.old.fail }
        ensures calls { self.new.calls ≡ counted self.old.calls }
        ensures cause { HasCause self.old.faults self.new.faults result }
        ensures faults { self.new.faults ≡ (if is_err result then counted self.old.faults else self.old.faults) }
    {
        self.calls = self.calls.saturating_add(1);
        if full || lists(self.fail.as_slice(), self.calls) {
            self.faults = self.faults.saturating_add(1);
            return Err(Failed);
        }
        Ok(())
    }
}

// Whether the call's number is among these.
fn lists(fail: &[u32], call: u64) -> bool
    ensures { result ≡ is_listed fail.now call }
{
    fail.iter().any(|number| u64::from(*number) == call)
}
