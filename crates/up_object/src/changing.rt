ghost use Rattle.std.specs.Prelude.{◌≡◌, ℕ, ◌+◌, ◌-◌, ◌<◌, ◌≤◌, ◌&&◌, ◌∷◌, true, false, length, option_to_list, nat_le, nat_lt, None, IfOk, IfErr, OnOk};
ghost use Rattle.up_bank.specs.declared.kind.FrameKind.{FrameKind as FrameKindValue};
ghost use Rattle.up_num.specs.declared.answers.AskKind.{AskKind as AskKindValue};
ghost use Rattle.up_asks.specs.Asking.{pages_of, SameAsks};
ghost use Rattle.up_model.specs.Looks as looks;
ghost use Rattle.up_model.specs.Use.{newest_epoch};
ghost use Rattle.up_model.specs.Changes.{SamePage, SetsState, Reframes, Uses, Fills, Writes, LetsDirty, PinsOne, UnpinsOne, Hints, Blanks, Goes, IsDue};
ghost use Rattle.up_object.specs.Parts.{shown, is_loan, bank_of};
ghost use Rattle.up_object.specs.Change.{next, next_using, is_done, of_kind, opened, AllAre, AllOwn, Rests};
ghost use Rattle.up_object.specs.Whole.{held, with_entry};
ghost use Rattle.up_object.specs.Numbers.{begin_in};
ghost use Rattle.up_pages.specs.Frames.{count_kind};
ghost use Rattle.up_pages.specs.Pages.{page_at, size_of};
ghost use Rattle.up_model.specs.Size.{size};
ghost use Rattle.up_model.specs.Concerns.{concerns, keeps_asks, keeps_spent, keeps_roles, keeps_modified, keeps_size};

use crate::banks::Banks;
use crate::closing::{hand_over, leaves_left};
use crate::frame_moves::{bared, copy_to, has_loan, lacks_own, last_of, state_in};
use crate::marks::{Key, Mark, Marks};
use crate::numbers::Numbers;
use crate::object::Object;
use crate::seating::settle;
use crate::tally::Tally;
use std::alloc::{AllocError, Global};
use std::marker::Model;
use up_asks::Asks;
use up_bank::FrameKind;
use up_model::{Birth, Entry, Log};
use up_num::{Memory, PageNo, PageState};
use up_pages::{Frames, Look, PageList};
use up_queues::Queues;

/// An object in the middle of a call: the call's pages, from the first on, are changed one by one, and then the rest. It has the
/// frames that the call was given, and those that come back.
pub struct Changing {
    pub(crate) birth: Birth,
    pub(crate) banks: Banks,
    pub(crate) pages: PageList,
    pub(crate) marks: Marks,
    pub(crate) queues: Queues,
    pub(crate) asks: Asks,
    pub(crate) tally: Tally,
    pub(crate) numbers: Numbers,
    pub(crate) newest: u64,
    pub(crate) leaves: u32,
    pub(crate) log: Log,
    pub(crate) entry: Entry,
    pub(crate) brings: FrameKind,
    pub(crate) given: Frames,
    pub(crate) back: Frames,
    pub(crate) first: u32,
    pub(crate) mark: u32,
    pub(crate) limit: u32,
    pub(crate) asks_done: bool,
    pub(crate) spent_done: bool,
    pub(crate) tally_done: bool,
    pub(crate) size_done: bool,
}

impl Model for Changing {
    ghost use Rattle.std.specs.Prelude.{length};
    ghost use Rattle.up_object.specs.Asks.{room_of};
    ghost use Rattle.up_object.specs.Change.{Change, counts_of};
    ghost use Rattle.up_pages.specs.Pages.{size_of};

    ghost Value = { Change };

    ghost use Rattle.up_object.specs.Changing.{ChangeStands};

    ghost view = { λ o. record {
      birth = o.birth;
      journal = o.log.entries;
      entry = o.entry;
      banks = o.banks;
      brings = o.brings;
      done = record { first = o.first; mark = o.mark; limit = o.limit; asks = o.asks_done; spent = o.spent_done; tally = o.tally_done; size = o.size_done };
      pages = size_of o.pages;
      given = length o.given.items;
      frames = counts_of o.given.items o.back.items o.pages;
      room = room_of o.asks;
    } };

    ghost invariant = { ChangeStands };
}

impl Changing {
    /// What the page at the mark is.
    pub fn look(&self) -> Look
        ensures { shown result ≡ looks.look_of self.now.birth self.now.journal self.now.done.mark }
    {
        self.pages.look(PageNo(self.mark))
    }

    /// The use of a page by the call's entry.
    fn fresh_key(&self) -> Key
        ensures { result ≡ record { used = length self.now.journal; generation = newest_epoch (self.now.entry ∷ self.now.journal); cold = None } }
    {
        Key {
            used: self.log.count(),
            generation: self.entry.epoch.max(self.newest),
            cold: None,
        }
    }

    /// Leaves the page at the mark as it is.
    pub fn keep(&mut self)
        requires left { self.old.done.mark < self.old.done.limit }
        requires same { SamePage self.old.birth self.old.entry self.old.journal self.old.done.mark }
        ensures { self.new ≡ next self.old }
    {
        self.mark += 1;
    }

    /// Brings the page at the mark into a state.
    pub fn set_state(&mut self, state: PageState)
        requires left { self.old.done.mark < self.old.done.limit }
        requires turns { SetsState self.old.birth self.old.entry self.old.journal self.old.done.mark state }
        ensures { self.new ≡ next self.old }
    {
        self.pages.set_state(PageNo(self.mark), state);
        self.mark += 1;
    }

    /// Uses the page at the mark.
    pub fn use_page(&mut self)
        requires left { self.old.done.mark < self.old.done.limit }
        requires uses { Uses self.old.birth self.old.entry self.old.journal self.old.done.mark }
        ensures { self.new ≡ next self.old }
    {
        let key = self.fresh_key();
        let old = self.marks.at(self.mark);
        self.marks.set(self.mark, Mark { key, ..old });
        self.mark += 1;
    }

    /// Takes one pin off the page at the mark.
    pub fn unpin(&mut self)
        requires left { self.old.done.mark < self.old.done.limit }
        requires unpins { UnpinsOne self.old.birth self.old.entry self.old.journal self.old.done.mark }
        ensures { self.new ≡ next self.old }
    {
        let old = self.marks.at(self.mark);
        let pins = old.pins - 1;
        self.marks.set(self.mark, Mark { pins, ..old });
        self.mark += 1;
    }

    /// Protects the page at the mark, or calls it cold.
    pub fn hint(&mut self, always: bool)
        requires left { self.old.done.mark < self.old.done.limit }
        requires hints { Hints self.old.birth self.old.entry self.old.journal self.old.done.mark always }
        ensures { self.new ≡ next self.old }
    {
        let old = self.marks.at(self.mark);
        let cold = if always {
            old.key.cold
        } else {
            Some(self.log.count())
        };
        let key = Key { cold, ..old.key };
        self.marks.set(self.mark, Mark { always, key, ..old });
        self.mark += 1;
    }

    /// Makes the page at the mark zeros. Its frame comes back.
    pub fn blank(&mut self)
        requires left { self.old.done.mark < self.old.done.limit }
        requires blanks { Blanks self.old.birth self.old.entry self.old.journal self.old.done.mark }
        ensures { self.new ≡ next self.old }
    {
        let dirtied = self.numbers.count();
        let old = self.marks.at(self.mark);
        let displaced = self.pages.set_zero(PageNo(self.mark), PageState::Dirty);
        self.back.put_some(displaced);
        self.marks.set(self.mark, Mark { dirtied, ..old });
        self.mark += 1;
    }

    /// Takes the page at the mark away. Its frame comes back.
    pub fn drop_page(&mut self)
        requires left { self.old.done.mark < self.old.done.limit }
        requires goes { Goes self.old.birth self.old.entry self.old.journal self.old.done.mark }
        ensures { self.new ≡ next self.old }
    {
        let mark = bared(&self.pages, &self.marks, &self.numbers, self.mark);
        let displaced = self.pages.take(PageNo(self.mark));
        self.back.put_some(displaced);
        self.marks.set(self.mark, mark);
        self.mark += 1;
    }

    /// Fills the page at the mark, which is missing, with a page of bytes, in a given frame.
    pub fn fill(&mut self, bytes: &[u8])
        requires left { self.old.done.mark < self.old.done.limit }
        requires frame { 0 < self.old.given }
        requires ordinary { is_loan self.old.brings ≡ false }
        requires whole { length bytes.now ≡ 4096 }
        requires fills { Fills self.old.birth self.old.entry self.old.journal self.old.done.mark bytes.now }
        ensures { self.new ≡ next_using true self.old }
    {
        let key = self.fresh_key();
        let old = self.marks.at(self.mark);
        let mut frame = last_of(&mut self.given);
        frame.set(0, bytes);
        let displaced = self.pages.put(PageNo(self.mark), frame, PageState::Clean);
        self.back.put_some(displaced);
        self.marks.set(self.mark, Mark { key, ..old });
        self.mark += 1;
    }

    /// Puts the page at the mark into a given frame, in a state. Its old frame comes back.
    pub fn reframe(&mut self, state: PageState)
        requires left { self.old.done.mark < self.old.done.limit }
        requires frame { 0 < self.old.given }
        requires reframes { Reframes self.old.birth self.old.entry self.old.journal self.old.done.mark state (is_loan self.old.brings) }
        ensures { self.new ≡ next_using true self.old }
    {
        let page = PageNo(self.mark);
        let mut frame = last_of(&mut self.given);
        copy_to(&self.pages, page, &mut frame);
        let displaced = self.pages.put(page, frame, state);
        self.back.put_some(displaced);
        self.mark += 1;
    }

    /// Gives the page at the mark one pin more, and a given frame where it has no frame of its own.
    pub fn pin(&mut self)
        requires left { self.old.done.mark < self.old.done.limit }
        requires frame { looks.lacks_own_frame (looks.look_of self.old.birth self.old.journal self.old.done.mark) ≡ true → 0 < self.old.given }
        requires ordinary { is_loan self.old.brings ≡ false }
        requires pins { PinsOne self.old.birth self.old.entry self.old.journal self.old.done.mark }
        ensures { self.new ≡ next_using (looks.lacks_own_frame (looks.look_of self.old.birth self.old.journal self.old.done.mark)) self.old }
    {
        if lacks_own(self.look()) {
            self.pin_in_given();
        } else {
            self.pin_in_place();
        }
    }

    fn pin_in_place(&mut self)
        requires left { self.old.done.mark < self.old.done.limit }
        requires own { looks.lacks_own_frame (looks.look_of self.old.birth self.old.journal self.old.done.mark) ≡ false }
        requires pins { PinsOne self.old.birth self.old.entry self.old.journal self.old.done.mark }
        ensures { self.new ≡ next self.old }
    {
        let key = self.fresh_key();
        let old = self.marks.at(self.mark);
        let pins = old.pins + 1;
        self.marks.set(self.mark, Mark { pins, key, ..old });
        self.mark += 1;
    }

    fn pin_in_given(&mut self)
        requires left { self.old.done.mark < self.old.done.limit }
        requires frame { 0 < self.old.given }
        requires ordinary { is_loan self.old.brings ≡ false }
        requires lacks { looks.lacks_own_frame (looks.look_of self.old.birth self.old.journal self.old.done.mark) ≡ true }
        requires pins { PinsOne self.old.birth self.old.entry self.old.journal self.old.done.mark }
        ensures { self.new ≡ next_using true self.old }
    {
        let key = self.fresh_key();
        let page = PageNo(self.mark);
        let state = state_in(self.pages.look(page));
        let old = bared(&self.pages, &self.marks, &self.numbers, self.mark);
        let pins = old.pins + 1;
        let mut frame = last_of(&mut self.given);
        copy_to(&self.pages, page, &mut frame);
        let displaced = self.pages.put(page, frame, state);
        self.back.put_some(displaced);
        self.marks.set(self.mark, Mark { pins, key, ..old });
        self.mark += 1;
    }

    /// Writes bytes into the page at the mark, which is there, from a place on. It gets a given frame where it has no frame of its
    /// own, and is dirty.
    pub fn write(&mut self, at: u32, bytes: &[u8])
        requires left { self.old.done.mark < self.old.done.limit }
        requires frame { looks.lacks_own_frame (looks.look_of self.old.birth self.old.journal self.old.done.mark) ≡ true → 0 < self.old.given }
        requires ordinary { is_loan self.old.brings ≡ false }
        requires within { at + length bytes.now ≤ 4096 }
        requires writes { Writes self.old.birth self.old.entry self.old.journal self.old.done.mark at bytes.now }
        ensures { self.new ≡ next_using (looks.lacks_own_frame (looks.look_of self.old.birth self.old.journal self.old.done.mark)) self.old }
    {
        if lacks_own(self.look()) {
            self.write_in_given(at, bytes);
        } else {
            self.write_in_place(at, bytes);
        }
    }

    fn write_in_place(&mut self, at: u32, bytes: &[u8])
        requires left { self.old.done.mark < self.old.done.limit }
        requires own { looks.lacks_own_frame (looks.look_of self.old.birth self.old.journal self.old.done.mark) ≡ false }
        requires within { at + length bytes.now ≤ 4096 }
        requires writes { Writes self.old.birth self.old.entry self.old.journal self.old.done.mark at bytes.now }
        ensures { self.new ≡ next self.old }
    {
        let key = self.fresh_key();
        let dirtied = self.numbers.count();
        let page = PageNo(self.mark);
        let old = self.marks.at(self.mark);
        self.pages.write_at(page, at, bytes);
        self.pages.set_state(page, PageState::Dirty);
        let mark = Mark {
            key,
            dirtied,
            ..old
        };
        self.marks.set(self.mark, mark);
        self.mark += 1;
    }

    fn write_in_given(&mut self, at: u32, bytes: &[u8])
        requires left { self.old.done.mark < self.old.done.limit }
        requires frame { 0 < self.old.given }
        requires ordinary { is_loan self.old.brings ≡ false }
        requires within { at + length bytes.now ≤ 4096 }
        requires writes { Writes self.old.birth self.old.entry self.old.journal self.old.done.mark at bytes.now }
        ensures { self.new ≡ next_using true self.old }
    {
        let key = self.fresh_key();
        let dirtied = self.numbers.count();
        let page = PageNo(self.mark);
        let old = bared(&self.pages, &self.marks, &self.numbers, self.mark);
        let mut frame = last_of(&mut self.given);
        copy_to(&self.pages, page, &mut frame);
        frame.set(at, bytes);
        let displaced = self.pages.put(page, frame, PageState::Dirty);
        self.back.put_some(displaced);
        let mark = Mark {
            key,
            dirtied,
            ..old
        };
        self.marks.set(self.mark, mark);
        self.mark += 1;
    }

    /// Lets the page at the mark get dirty. Its frame is exchanged for a given one where it is loaned.
    pub fn dirty(&mut self)
        requires left { self.old.done.mark < self.old.done.limit }
        requires frame { looks.has_loan (looks.look_of self.old.birth self.old.journal self.old.done.mark) ≡ true → 0 < self.old.given }
        requires ordinary { is_loan self.old.brings ≡ false }
        requires dirties { LetsDirty self.old.birth self.old.entry self.old.journal self.old.done.mark }
        ensures { self.new ≡ next_using (looks.has_loan (looks.look_of self.old.birth self.old.journal self.old.done.mark)) self.old }
    {
        if has_loan(self.look()) {
            self.dirty_in_given();
        } else {
            self.dirty_in_place();
        }
    }

    fn dirty_in_place(&mut self)
        requires left { self.old.done.mark < self.old.done.limit }
        requires own { looks.has_loan (looks.look_of self.old.birth self.old.journal self.old.done.mark) ≡ false }
        requires dirties { LetsDirty self.old.birth self.old.entry self.old.journal self.old.done.mark }
        ensures { self.new ≡ next self.old }
    {
        let dirtied = self.numbers.count();
        let old = self.marks.at(self.mark);
        self.pages.set_state(PageNo(self.mark), PageState::Dirty);
        self.marks.set(self.mark, Mark { dirtied, ..old });
        self.mark += 1;
    }

    fn dirty_in_given(&mut self)
        requires left { self.old.done.mark < self.old.done.limit }
        requires frame { 0 < self.old.given }
        requires ordinary { is_loan self.old.brings ≡ false }
        requires loaned { looks.has_loan (looks.look_of self.old.birth self.old.journal self.old.done.mark) ≡ true }
        requires dirties { LetsDirty self.old.birth self.old.entry self.old.journal self.old.done.mark }
        ensures { self.new ≡ next_using true self.old }
    {
        let dirtied = self.numbers.count();
        let page = PageNo(self.mark);
        let old = self.marks.at(self.mark);
        let mut frame = last_of(&mut self.given);
        copy_to(&self.pages, page, &mut frame);
        let displaced = self.pages.put(page, frame, PageState::Dirty);
        self.back.put_some(displaced);
        self.marks.set(self.mark, Mark { dirtied, ..old });
        self.mark += 1;
    }

    /// Ends the call: what wasn't changed is as before, and the pages from one on, up to another, get their places in the queues anew.
    /// It gives the object, and all frames that weren't used or came back.
    pub fn close(self, from: u32, to: u32) -> (Object, Frames)
        requires order { from ≤ to }
        requires bound { to ≤ self.pages }
        requires pages { (p : ℕ) → is_done self.done p ≡ false → concerns self.birth self.journal self.entry p ≡ false }
        requires places { (p : ℕ) → (nat_le from p && nat_lt p to) ≡ false → Rests self.birth self.entry self.journal self.done p }
        requires asks { self.done.asks ≡ false → keeps_asks self.entry ≡ true }
        requires spent { self.done.spent ≡ false → keeps_spent self.entry ≡ true }
        requires tally { self.done.tally ≡ false → (keeps_roles self.entry && keeps_modified self.entry) ≡ true }
        requires size { self.done.size ≡ false → keeps_size self.entry ≡ true }
        requires due { IsDue self.birth self.entry self.journal }
        ensures object { result.0 ≡ record { birth = self.birth; journal = self.entry ∷ self.journal; banks = self.banks } }
        ensures frames { (kind : FrameKindValue) → count_kind kind result.1.items + held self.birth (self.entry ∷ self.journal) kind ≡ of_kind kind self.frames }
        ensures own { AllOwn self.banks result.1.items }
    {
        let Changing {
            birth,
            banks,
            pages,
            marks,
            mut queues,
            asks,
            tally,
            mut numbers,
            newest,
            leaves,
            mut log,
            entry,
            brings: _,
            given,
            mut back,
            first: _,
            mark: _,
            limit: _,
            asks_done: _,
            spent_done: _,
            tally_done: _,
            size_done: _,
        } = self;
        settle(&pages, &marks, &asks, &mut queues, from, to);
        hand_over(given, &mut back);
        let newest = entry.epoch.max(newest);
        let leaves = leaves_left(&entry.call, leaves);
        numbers.add(&entry);
        log.push(entry);
        let object = Object {
            birth,
            banks,
            pages,
            marks,
            queues,
            asks,
            tally,
            numbers,
            newest,
            leaves,
            log,
        };
        (object, back)
    }
}

/// Takes the room that a call may need: for its entry above those reserved for leaves and the begin that it gives a number, for changes of
/// its pages, for frames that come back, for a ticket, packets, and changes of the asked pages.
fn take_all_room(
    entry: &Entry,
    log: &mut Log,
    numbers: &mut Numbers,
    pages: &mut PageList,
    back: &mut Frames,
    asks: &mut Asks,
    leaves: u32,
    count: u32,
    given: u32,
    packets: u32,
    changes: u32,
) -> Result<(), Memory>
    requires few { leaves ≤ 128 }
    ensures entries { log.new.entries ≡ log.old.entries }
    ensures spare { log.old.spare ≤ log.new.spare }
    ensures begins { numbers.new.begins ≡ numbers.old.begins }
    ensures pages { (p : ℕ) → page_at pages.new p ≡ page_at pages.old p }
    ensures size { size_of pages.new ≡ size_of pages.old }
    ensures items { back.new.items ≡ back.old.items }
    ensures asks { SameAsks asks.old asks.new }
    ensures enough { OnOk result (leaves < log.new.spare) }
    ensures place { OnOk result (length (option_to_list (begin_in entry.now)) ≤ numbers.new.spare) }
    ensures ready { OnOk result (count ≤ pages.new.spare) }
    ensures room { OnOk result (length back.new.items + (given + count) ≤ back.new.room) }
    ensures ticket { OnOk result (0 < asks.new.ticket_room) }
    ensures packets { OnOk result (packets ≤ asks.new.packet_room) }
    ensures changes { OnOk result ((kind : AskKindValue) → changes ≤ (pages_of asks.new.pages kind).room) }
{
    asks.reserve(packets, changes as usize)?;
    take_room(entry, log, numbers, pages, back, leaves, count, given)
}

/// Takes the room that a call may need: for its entry above those reserved for leaves and the begin that it gives a number, for changes of
/// its pages, and for frames that come back.
pub(crate) fn take_room(
    entry: &Entry,
    log: &mut Log,
    numbers: &mut Numbers,
    pages: &mut PageList,
    back: &mut Frames,
    leaves: u32,
    count: u32,
    given: u32,
) -> Result<(), Memory>
    requires few { leaves ≤ 128 }
    ensures entries { log.new.entries ≡ log.old.entries }
    ensures spare { log.old.spare ≤ log.new.spare }
    ensures begins { numbers.new.begins ≡ numbers.old.begins }
    ensures pages { (p : ℕ) → page_at pages.new p ≡ page_at pages.old p }
    ensures size { size_of pages.new ≡ size_of pages.old }
    ensures items { back.new.items ≡ back.old.items }
    ensures enough { OnOk result (leaves < log.new.spare) }
    ensures place { OnOk result (length (option_to_list (begin_in entry.now)) ≤ numbers.new.spare) }
    ensures ready { OnOk result (count ≤ pages.new.spare) }
    ensures room { OnOk result (length back.new.items + (given + count) ≤ back.new.room) }
{
    let Some(frames) = given.checked_add(count) else {
        return Err(AllocError);
    };
    log.room(leaves + 1)?;
    numbers.make_room(entry)?;
    pages.reserve(count)?;
    back.make_room(frames)
}

/// Begins a call on the pages from one on, up to another, with frames of this kind.
pub fn open(
    object: Object,
    alloc: Global,
    entry: Entry,
    brings: FrameKind,
    given: Frames,
    first: u32,
    limit: u32,
) -> Result<Changing, (Memory, Object, Frames)>
    requires order { first ≤ limit }
    requires fits { limit ≤ size object.birth object.journal }
    requires own { AllAre (bank_of object.banks brings) given.items }
    ensures ok { IfOk result (λ change. change ≡ opened object entry brings given first limit change.frames change.room) }
    ensures frames { IfOk result (λ change. (kind : FrameKindValue) → of_kind kind change.frames ≡ count_kind kind given.items + held object.birth object.journal kind) }
    ensures same { IfErr result (λ failed. failed.1 ≡ object) }
    ensures back { IfErr result (λ failed. failed.2 ≡ given) }
{
    open_asking(object, alloc, entry, brings, given, first, limit, 0, 0)
}

/// Begins a call as `open` does, with room for a ticket, for so many packets, and for so many changes of the asked pages.
pub fn open_asking(
    object: Object,
    alloc: Global,
    entry: Entry,
    brings: FrameKind,
    given: Frames,
    first: u32,
    limit: u32,
    packets: u32,
    changes: u32,
) -> Result<Changing, (Memory, Object, Frames)>
    requires order { first ≤ limit }
    requires fits { limit ≤ size object.birth object.journal }
    requires own { AllAre (bank_of object.banks brings) given.items }
    ensures ok { IfOk result (λ change. change ≡ opened object entry brings given first limit change.frames change.room) }
    ensures frames { IfOk result (λ change. (kind : FrameKindValue) → of_kind kind change.frames ≡ count_kind kind given.items + held object.birth object.journal kind) }
    ensures room { IfOk result (λ change. (0 < change.room.tickets) × ((packets ≤ change.room.packets) × (changes ≤ change.room.changes))) }
    ensures same { IfErr result (λ failed. failed.1 ≡ object) }
    ensures back { IfErr result (λ failed. failed.2 ≡ given) }
{
    let Object {
        birth,
        banks,
        mut pages,
        marks,
        queues,
        mut asks,
        tally,
        mut numbers,
        newest,
        leaves,
        mut log,
    } = object;
    let mut back = Frames::new(alloc);
    let reserved = leaves_left(&entry.call, leaves);
    let count = given.len();
    match take_all_room(
        &entry,
        &mut log,
        &mut numbers,
        &mut pages,
        &mut back,
        &mut asks,
        reserved,
        limit - first,
        count,
        packets,
        changes,
    ) {
        Ok(()) => Ok(Changing {
            birth,
            banks,
            pages,
            marks,
            queues,
            asks,
            tally,
            numbers,
            newest,
            leaves,
            log,
            entry,
            brings,
            given,
            back,
            first,
            mark: first,
            limit,
            asks_done: false,
            spent_done: false,
            tally_done: false,
            size_done: false,
        }),
        Err(memory) => {
            back.end();
            let object = Object {
                birth,
                banks,
                pages,
                marks,
                queues,
                asks,
                tally,
                numbers,
                newest,
                leaves,
                log,
            };
            Err((memory, object, given))
        }
    }
}

/// Makes a call that changes no part: only the journal grows. All frames that were given come back.
pub fn note(
    object: Object,
    alloc: Global,
    entry: Entry,
    brings: FrameKind,
    given: Frames,
) -> Result<(Object, Frames), (Memory, Object, Frames)>
    requires own { AllAre (bank_of object.banks brings) given.items }
    requires pages { (p : ℕ) → concerns object.birth object.journal entry p ≡ false }
    requires asks { keeps_asks entry ≡ true }
    requires spent { keeps_spent entry ≡ true }
    requires tally { (keeps_roles entry && keeps_modified entry) ≡ true }
    requires size { keeps_size entry ≡ true }
    requires due { IsDue object.birth entry object.journal }
    ensures ok { IfOk result (λ done. done.0 ≡ with_entry object entry) }
    ensures frames { IfOk result (λ done. (kind : FrameKindValue) → count_kind kind done.1.items + held object.birth (entry ∷ object.journal) kind ≡ count_kind kind given.items + held object.birth object.journal kind) }
    ensures own { IfOk result (λ done. AllOwn object.banks done.1.items) }
    ensures same { IfErr result (λ failed. failed.1 ≡ object) }
    ensures back { IfErr result (λ failed. failed.2 ≡ given) }
{
    match open(object, alloc, entry, brings, given, 0, 0) {
        Ok(changing) => Ok(changing.close(0, 0)),
        Err(failed) => Err(failed),
    }
}
