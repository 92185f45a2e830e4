ghost use Rattle.std.specs.Prelude.{◌≡◌, ℕ, ◌+◌, ◌<◌, ◌≤◌, ◌^◌, ◌&&◌, ◌||◌, [], false, not, MatchOption, IfOk, OnOk, OnErr};
ghost use Rattle.up_span.specs.Pages.{within};
ghost use Rattle.up_span.specs.Runs.{runs as maximal_runs};
ghost use Rattle.up_span.specs.Sets.{holds, Apart, IsFirstRun};

use crate::Memory;
use crate::gaps::gaps_of;
use crate::run::Run;
use crate::runs::Runs;
use crate::search::{apart_from, begun_by, ended_by, run_at, start_at, stop_before};
use crate::stretch::{Stretch, put_between};
use std::alloc::Global;
use std::marker::Model;

/// A set of page numbers below 2^32 - 1.
#[derive(Debug, Drop)]
pub struct Spans {
    runs: Vec<Run>,
}

impl Model for Spans {
    ghost use Rattle.std.specs.Prelude.{◌-◌, vec_len};
    ghost use Rattle.std.specs.Vec.{vec_capacity};
    ghost use Rattle.up_span.specs.Sets.{AreSpans, PageSet};

    ghost Value = { PageSet };

    ghost view = { λ set. record { runs = set.runs.items; room = vec_capacity set.runs - vec_len set.runs } };

    ghost invariant = { λ set. AreSpans set.runs.items };
}

impl Spans {
    /// The empty set. It takes no memory.
    pub fn new(alloc: Global) -> Self
        ensures { result.runs ≡ [] }
    {
        Spans {
            runs: Vec::new(alloc),
        }
    }

    /// Makes room for so many changes, each of which then takes no memory.
    pub fn reserve(&mut self, changes: usize) -> Result<(), Memory>
        ensures same { self.new.runs ≡ self.old.runs }
        ensures more { self.old.room ≤ self.new.room }
        ensures ok { OnOk result (changes ≤ self.new.room) }
        ensures err { OnErr result (self.new ≡ self.old) }
    {
        self.runs.reserve(changes)
    }

    /// Adds the pages of a range.
    pub fn add(&mut self, first: u32, count: u32) -> Result<(), Memory>
        requires { first + count < 2 ^ 32 }
        ensures ok { OnOk result ((page : ℕ) → holds self.new.runs page ≡ (holds self.old.runs page || within first count page)) }
        ensures err { OnErr result (self.new ≡ self.old) }
    {
        self.reserve(1)?;
        self.add_reserved(first, count);
        Ok(())
    }

    /// Adds the pages of a range, in the room for one change.
    pub fn add_reserved(&mut self, first: u32, count: u32)
        requires below { first + count < 2 ^ 32 }
        requires room { 0 < self.old.room }
        ensures pages { (page : ℕ) → holds self.new.runs page ≡ (holds self.old.runs page || within first count page) }
        ensures room { self.old.room ≤ self.new.room + 1 }
    {
        if count == 0 {
            return;
        }
        let end = first + count;
        let low = apart_from(&self.runs, first);
        let high = begun_by(&self.runs, end);
        let start = start_at(&self.runs, low, first);
        let stop = stop_before(&self.runs, high, end);
        let joined = Stretch {
            from: start,
            to: stop,
        };
        let nothing = Stretch { from: end, to: end };
        put_between(&mut self.runs, low, high, joined, nothing);
    }

    /// Takes the pages of a range out.
    pub fn remove(&mut self, first: u32, count: u32) -> Result<(), Memory>
        requires { first + count < 2 ^ 32 }
        ensures ok { OnOk result ((page : ℕ) → holds self.new.runs page ≡ (holds self.old.runs page && not (within first count page))) }
        ensures err { OnErr result (self.new ≡ self.old) }
    {
        self.reserve(1)?;
        self.remove_reserved(first, count);
        Ok(())
    }

    /// Takes the pages of a range out, in the room for one change.
    pub fn remove_reserved(&mut self, first: u32, count: u32)
        requires below { first + count < 2 ^ 32 }
        requires room { 0 < self.old.room }
        ensures pages { (page : ℕ) → holds self.new.runs page ≡ (holds self.old.runs page && not (within first count page)) }
        ensures room { self.old.room ≤ self.new.room + 1 }
    {
        if count == 0 {
            return;
        }
        let end = first + count;
        let low = ended_by(&self.runs, first);
        let high = begun_by(&self.runs, end - 1);
        let start = start_at(&self.runs, low, first);
        let stop = stop_before(&self.runs, high, end);
        let left = Stretch {
            from: start,
            to: first,
        };
        let right = Stretch {
            from: end,
            to: stop,
        };
        put_between(&mut self.runs, low, high, left, right);
    }

    /// Takes all pages out. It takes no memory.
    pub fn clear(&mut self)
        ensures runs { self.new.runs ≡ [] }
        ensures room { self.old.room ≤ self.new.room }
    {
        self.runs.truncate(0);
    }

    pub fn holds(&self, page: u32) -> bool
        ensures { result ≡ holds self.now.runs page }
    {
        let place = ended_by(&self.runs, page);
        place < self.runs.len() && run_at(&self.runs, place).first <= page
    }

    /// The maximal runs of a range's pages that aren't in the set.
    pub fn minus(&self, alloc: Global, first: u32, count: u32) -> Result<Runs, Memory>
        requires { first + count < 2 ^ 32 }
        ensures { IfOk result (λ outside. outside ≡ maximal_runs (λ page. not (holds self.now.runs page)) first 0 count) }
    {
        gaps_of(alloc, &self.runs, first, count)
    }

    /// The least maximal run of the set.
    pub fn first_run(&self) -> Option<Run>
        ensures least { MatchOption result ((page : ℕ) → holds self.now.runs page ≡ false) (λ run. IsFirstRun (holds self.now.runs) run) }
        ensures apart { Apart 0 self.now.runs }
    {
        if self.runs.is_empty() {
            None
        } else {
            Some(run_at(&self.runs, 0))
        }
    }

    pub fn copy(&self, alloc: Global) -> Result<Self, Memory>
        ensures { IfOk result (λ copied. copied.runs ≡ self.now.runs) }
    {
        let runs = Vec::from_slice(alloc, self.runs.as_slice())?;
        Ok(Spans { runs })
    }
}
