ghost use Rattle.std.specs.Prelude.{◌≡◌, ℕ, ◌+◌, ◌-◌, ◌<◌, ◌≤◌, ◌&&◌, ◌∷◌, true, false, length, option_to_list, nat_le, nat_lt, IfOk, IfErr, OnOk, OnErr};
ghost use Rattle.up_num.specs.declared.answers.AskKind.TheVariants.{Dirty as DirtyAsk};
ghost use Rattle.up_bank.specs.declared.kind.FrameKind.{FrameKind as FrameKindValue};
ghost use Rattle.up_model.specs.Asks as asks;
ghost use Rattle.up_model.specs.Size as sizes;
ghost use Rattle.up_model.specs.Changes.{Vanishes, IsDue};
ghost use Rattle.up_model.specs.Concerns.{concerns, keeps_asks, keeps_spent, keeps_roles, keeps_modified};
ghost use Rattle.up_object.specs.Change.{grown, next, at_mark, of_kind, AllOwn};
ghost use Rattle.up_object.specs.Numbers.{begin_in};
ghost use Rattle.up_object.specs.Parts.{mark_at};
ghost use Rattle.up_object.specs.Whole.{held};
ghost use Rattle.up_pages.specs.Frames.{count_kind};
ghost use Rattle.up_pages.specs.Pages.{page_at, size_of, held_by};
ghost use Rattle.up_pages.specs.declared.page.Page.TheVariants.{Absent as AbsentPage};

use crate::changing::{Changing, take_room};
use crate::closing::{hand_over, leaves_left};
use crate::frame_moves::bared;
use crate::marks::{Mark, Marks};
use crate::numbers::Numbers;
use crate::object::Object;
use crate::seating::settle;
use std::alloc::Global;
use up_bank::FrameKind;
use up_model::{Entry, Log};
use up_num::{Memory, PageNo};
use up_pages::{Frames, PageList};
use up_queues::Queues;

/// Takes the room that a call may need that brings pages up to a size, for its entry above those reserved for leaves, and for changes
/// of these pages; then it brings them.
fn widen(
    entry: &Entry,
    log: &mut Log,
    numbers: &mut Numbers,
    pages: &mut PageList,
    marks: &mut Marks,
    queues: &mut Queues,
    back: &mut Frames,
    leaves: u32,
    limit: u32,
) -> Result<(), Memory>
    requires few { leaves ≤ 128 }
    requires more { size_of pages.old ≤ limit }
    ensures entries { log.new.entries ≡ log.old.entries }
    ensures spare { log.old.spare ≤ log.new.spare }
    ensures begins { numbers.new.begins ≡ numbers.old.begins }
    ensures pages { (p : ℕ) → page_at pages.new p ≡ page_at pages.old p }
    ensures still { OnErr result (size_of pages.new ≡ size_of pages.old) }
    ensures kinds { (kind : FrameKindValue) → held_by kind pages.new ≡ held_by kind pages.old }
    ensures marks { (p : ℕ) → mark_at marks.new p ≡ mark_at marks.old p }
    ensures marked { length marks.old ≤ length marks.new }
    ensures queued { queues.new.items ≡ queues.old.items }
    ensures wide { queues.old.room ≤ queues.new.room }
    ensures none { back.new.items ≡ back.old.items }
    ensures enough { OnOk result (leaves < log.new.spare) }
    ensures place { OnOk result (length (option_to_list (begin_in entry.now)) ≤ numbers.new.spare) }
    ensures size { OnOk result (size_of pages.new ≡ limit) }
    ensures ready { OnOk result (limit - size_of pages.old ≤ pages.new.spare) }
    ensures places { OnOk result (limit ≤ length marks.new) }
    ensures seats { OnOk result (limit ≤ queues.new.room) }
    ensures room { OnOk result (length back.new.items + (limit - size_of pages.old) ≤ back.new.room) }
{
    let more = limit - pages.size();
    take_room(entry, log, numbers, pages, back, leaves, more, 0)?;
    queues.reserve(limit)?;
    marks.grow(limit)?;
    pages.grow(limit)
}

/// Begins a call that brings pages, up to a size. These are the call's pages; they are absent until they are done.
pub fn open_growing(
    object: Object,
    alloc: Global,
    entry: Entry,
    limit: u32,
) -> Result<Changing, (Memory, Object)>
    requires more { sizes.size object.birth object.journal ≤ limit }
    requires size { sizes.size object.birth (entry ∷ object.journal) ≡ limit }
    ensures ok { IfOk result (λ change. change ≡ grown object entry limit change.frames change.room) }
    ensures frames { IfOk result (λ change. (kind : FrameKindValue) → of_kind kind change.frames ≡ held object.birth object.journal kind) }
    ensures same { IfErr result (λ failed. failed.1 ≡ object) }
{
    let Object {
        birth,
        banks,
        mut pages,
        mut marks,
        mut queues,
        asks,
        tally,
        mut numbers,
        newest,
        leaves,
        mut log,
    } = object;
    let given = Frames::new(alloc);
    let mut back = Frames::new(alloc);
    let reserved = leaves_left(&entry.call, leaves);
    let first = pages.size();
    match widen(
        &entry,
        &mut log,
        &mut numbers,
        &mut pages,
        &mut marks,
        &mut queues,
        &mut back,
        reserved,
        limit,
    ) {
        Ok(()) => Ok(Changing {
            birth,
            banks,
            pages,
            marks,
            queues,
            asks,
            tally,
            numbers,
            newest,
            leaves,
            log,
            entry,
            brings: FrameKind::Ordinary,
            given,
            back,
            first,
            mark: first,
            limit,
            asks_done: false,
            spent_done: false,
            tally_done: false,
            size_done: true,
        }),
        Err(memory) => {
            given.end();
            back.end();
            let object = Object {
                birth,
                banks,
                pages,
                marks,
                queues,
                asks,
                tally,
                numbers,
                newest,
                leaves,
                log,
            };
            Err((memory, object))
        }
    }
}

/// Takes off the pages from one on, which are absent. It takes no memory.
fn shorten(pages: &mut PageList, alloc: Global, first: u32)
    requires within { first ≤ size_of pages.old }
    requires absent { (p : ℕ) → first ≤ p → page_at pages.old p ≡ AbsentPage }
    ensures size { size_of pages.new ≡ first }
    ensures pages { (p : ℕ) → page_at pages.new p ≡ page_at pages.old p }
    ensures kinds { (kind : FrameKindValue) → held_by kind pages.new ≡ held_by kind pages.old }
{
    match pages.cut(alloc, first) {
        Ok(frames) => frames.end(),
        Err(_) => unreachable!(),
    }
}

impl Changing {
    /// Cuts off the page at the mark. Its frame comes back.
    fn vanish(&mut self)
        requires left { self.old.done.mark < self.old.done.limit }
        requires gone { Vanishes self.old.birth self.old.entry self.old.journal self.old.done.mark }
        ensures { self.new ≡ next self.old }
    {
        let old = bared(&self.pages, &self.marks, &self.numbers, self.mark);
        let displaced = self.pages.take(PageNo(self.mark));
        self.back.put_some(displaced);
        let mark = Mark {
            dirtied: old.dirtied,
            unzeroed: old.unzeroed,
            ..Mark::none()
        };
        self.marks.set(self.mark, mark);
        self.mark += 1;
    }

    /// Cuts off all pages from the mark on.
    fn vanish_all(&mut self)
        requires gone { (p : ℕ) → self.old.done.first ≤ p → p < self.old.done.limit → Vanishes self.old.birth self.old.entry self.old.journal p }
        ensures { self.new ≡ at_mark self.old.done.limit self.old }
    {
        let limit = self.limit;
        for _place in self.mark..limit {
            self.vanish();
        }
    }

    /// Ends a call that cuts off its pages, which are the last ones of the object. It takes no memory. It gives the object,
    /// and all frames that weren't used or come back, those of the pages that are cut off among them.
    pub fn close_cut(self, alloc: Global) -> (Object, Frames)
        requires whole { self.done.limit ≡ self.pages }
        requires size { sizes.size self.birth (self.entry ∷ self.journal) ≡ self.done.first }
        requires gone { (p : ℕ) → self.done.first ≤ p → p < self.done.limit → Vanishes self.birth self.entry self.journal p }
        requires pages { (p : ℕ) → (nat_le self.done.first p && nat_lt p self.done.limit) ≡ false → concerns self.birth self.journal self.entry p ≡ false }
        requires unasked { (p : ℕ) → (nat_le self.done.first p && nat_lt p self.done.limit) ≡ false → asks.asked self.birth (self.entry ∷ self.journal) DirtyAsk p ≡ asks.asked self.birth self.journal DirtyAsk p }
        requires asks { self.done.asks ≡ false → keeps_asks self.entry ≡ true }
        requires spent { self.done.spent ≡ false → keeps_spent self.entry ≡ true }
        requires tally { self.done.tally ≡ false → (keeps_roles self.entry && keeps_modified self.entry) ≡ true }
        requires due { IsDue self.birth self.entry self.journal }
        ensures object { result.0 ≡ record { birth = self.birth; journal = self.entry ∷ self.journal; banks = self.banks } }
        ensures frames { (kind : FrameKindValue) → count_kind kind result.1.items + held self.birth (self.entry ∷ self.journal) kind ≡ of_kind kind self.frames }
        ensures own { AllOwn self.banks result.1.items }
    {
        let mut change = self;
        change.vanish_all();
        change.close_gone(alloc)
    }

    /// Ends the call, when all its pages are cut off.
    fn close_gone(self, alloc: Global) -> (Object, Frames)
        requires whole { self.done.limit ≡ self.pages }
        requires done { self.done.mark ≡ self.done.limit }
        requires size { sizes.size self.birth (self.entry ∷ self.journal) ≡ self.done.first }
        requires gone { (p : ℕ) → self.done.first ≤ p → p < self.done.limit → Vanishes self.birth self.entry self.journal p }
        requires pages { (p : ℕ) → (nat_le self.done.first p && nat_lt p self.done.limit) ≡ false → concerns self.birth self.journal self.entry p ≡ false }
        requires unasked { (p : ℕ) → (nat_le self.done.first p && nat_lt p self.done.limit) ≡ false → asks.asked self.birth (self.entry ∷ self.journal) DirtyAsk p ≡ asks.asked self.birth self.journal DirtyAsk p }
        requires asks { self.done.asks ≡ false → keeps_asks self.entry ≡ true }
        requires spent { self.done.spent ≡ false → keeps_spent self.entry ≡ true }
        requires tally { self.done.tally ≡ false → (keeps_roles self.entry && keeps_modified self.entry) ≡ true }
        requires due { IsDue self.birth self.entry self.journal }
        ensures object { result.0 ≡ record { birth = self.birth; journal = self.entry ∷ self.journal; banks = self.banks } }
        ensures frames { (kind : FrameKindValue) → count_kind kind result.1.items + held self.birth (self.entry ∷ self.journal) kind ≡ of_kind kind self.frames }
        ensures own { AllOwn self.banks result.1.items }
    {
        let Changing {
            birth,
            banks,
            mut pages,
            marks,
            mut queues,
            asks,
            tally,
            mut numbers,
            newest,
            leaves,
            mut log,
            entry,
            brings: _,
            given,
            mut back,
            first,
            mark: _,
            limit,
            asks_done: _,
            spent_done: _,
            tally_done: _,
            size_done: _,
        } = self;
        settle(&pages, &marks, &asks, &mut queues, first, limit);
        shorten(&mut pages, alloc, first);
        hand_over(given, &mut back);
        let newest = entry.epoch.max(newest);
        let leaves = leaves_left(&entry.call, leaves);
        numbers.add(&entry);
        log.push(entry);
        let object = Object {
            birth,
            banks,
            pages,
            marks,
            queues,
            asks,
            tally,
            numbers,
            newest,
            leaves,
            log,
        };
        (object, back)
    }
}
