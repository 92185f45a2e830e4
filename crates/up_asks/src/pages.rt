//! The pages that are asked for with each kind.
ghost use Rattle.std.specs.Prelude.{◌≡◌, ℕ, ◌+◌, ◌<◌, ◌≤◌, ◌^◌, ◌&&◌, ◌||◌, [], false, length, not, OnOk, IfOk};
ghost use Rattle.up_num.specs.Asks as asks;
ghost use Rattle.up_num.specs.declared.answers.AskKind.{AskKind as AskKindValue};
ghost use Rattle.up_span.specs.Pages.{within};
ghost use Rattle.up_span.specs.Runs.{runs as maximal_runs};
ghost use Rattle.up_span.specs.Sets.{holds};
ghost use Rattle.up_asks.specs.Asking.{AskedPages, pages_of, event_of, events_of};
ghost use Rattle.up_asks.specs.Keeps.{AllFixed};

use crate::event::{Event, event_at, pages_in, start_of};
use std::alloc::Global;
use std::marker::Model;
use up_num::{AskKind, Memory};
use up_span::{Runs, Spans};

#[derive(Debug, Drop)]
pub(crate) struct Pages {
    read: Spans,
    dirty: Spans,
}

impl Model for Pages {
    ghost use Rattle.up_asks.specs.Asking.{AskedPages};

    ghost Value = { AskedPages };

    ghost view = { λ pages. record { read = pages.read; dirty = pages.dirty } };
}

impl Pages {
    pub(crate) fn new(alloc: Global) -> Self
        ensures { (kind : AskKindValue) → (pages_of result kind).runs ≡ [] }
    {
        Pages {
            read: Spans::new(alloc),
            dirty: Spans::new(alloc),
        }
    }

    /// Makes room for so many changes of each set.
    pub(crate) fn reserve(&mut self, changes: usize) -> Result<(), Memory>
        ensures same { (kind : AskKindValue) → (pages_of self.new kind).runs ≡ (pages_of self.old kind).runs }
        ensures more { (kind : AskKindValue) → (pages_of self.old kind).room ≤ (pages_of self.new kind).room }
        ensures ok { OnOk result ((kind : AskKindValue) → changes ≤ (pages_of self.new kind).room) }
    {
        self.read.reserve(changes)?;
        self.dirty.reserve(changes)
    }

    pub(crate) fn holds(&self, kind: AskKind, page: u32) -> bool
        ensures { result ≡ holds (pages_of self.now kind).runs page }
    {
        match kind {
            AskKind::Read => self.read.holds(page),
            AskKind::Dirty => self.dirty.holds(page),
        }
    }

    /// The maximal runs of these pages that aren't asked for with this kind.
    pub(crate) fn missing(
        &self,
        alloc: Global,
        kind: AskKind,
        first: u32,
        count: u32,
    ) -> Result<Runs, Memory>
        requires { first + count < 2 ^ 32 }
        ensures { IfOk result (λ parts. parts ≡ maximal_runs (λ page. not (holds (pages_of self.now kind).runs page)) first 0 count) }
    {
        match kind {
            AskKind::Read => self.read.minus(alloc, first, count),
            AskKind::Dirty => self.dirty.minus(alloc, first, count),
        }
    }

    /// Asks for these pages too.
    pub(crate) fn add(&mut self, kind: AskKind, first: u32, count: u32)
        requires below { first + count < 2 ^ 32 }
        requires room { (each : AskKindValue) → 0 < (pages_of self.old each).room }
        ensures pages { (each : AskKindValue) (page : ℕ) → holds (pages_of self.new each).runs page
            ≡ (asks.same_kind kind each && within first count page || holds (pages_of self.old each).runs page) }
        ensures room { (each : AskKindValue) → (pages_of self.old each).room ≤ (pages_of self.new each).room + 1 }
    {
        match kind {
            AskKind::Read => self.read.add_reserved(first, count),
            AskKind::Dirty => self.dirty.add_reserved(first, count),
        }
    }

    /// Takes the pages of an event out.
    fn take_out(&mut self, event: &Event)
        requires fixed { asks.is_waiting event.now.outcome ≡ false }
        requires room { (each : AskKindValue) → 0 < (pages_of self.old each).room }
        ensures pages { (each : AskKindValue) (page : ℕ) → holds (pages_of self.new each).runs page
            ≡ (holds (pages_of self.old each).runs page && asks.is_waiting (event_of event.now each page)) }
        ensures room { (each : AskKindValue) → (pages_of self.old each).room ≤ (pages_of self.new each).room + 1 }
    {
        let first = start_of(&event.range);
        let count = pages_in(&event.range);
        match event.kind {
            AskKind::Read => self.read.remove_reserved(first, count),
            AskKind::Dirty => self.dirty.remove_reserved(first, count),
        }
    }

    /// Takes the pages of all events out.
    pub(crate) fn take_all_out(&mut self, events: &[Event])
        requires fixed { AllFixed events.now }
        requires room { (each : AskKindValue) → length events.now ≤ (pages_of self.old each).room }
        ensures pages { (each : AskKindValue) (page : ℕ) → holds (pages_of self.new each).runs page
            ≡ (holds (pages_of self.old each).runs page && asks.is_waiting (events_of events.now each page)) }
        ensures room { (each : AskKindValue) → (pages_of self.old each).room ≤ (pages_of self.new each).room + length events.now }
    {
        for place in 0..events.len() {
            self.take_out(event_at(events, place));
        }
    }

    /// Asks for no page any more.
    pub(crate) fn clear(&mut self)
        ensures { (each : AskKindValue) → (pages_of self.new each).runs ≡ [] }
    {
        self.read.clear();
        self.dirty.clear();
    }
}
