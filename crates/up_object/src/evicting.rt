//! Pages that go in any order, as an evict lists them.
ghost use Rattle.std.specs.Prelude.{◌≡◌, ℕ, ◌+◌, ◌<◌, ◌≤◌, ◌==◌, ◌&&◌, ◌∷◌, ◌++◌, cond, length, option_to_list, true, false, None, IfOk, IfErr, OnOk};
ghost use Rattle.up_bank.specs.declared.kind.FrameKind.{FrameKind as FrameKindValue};
ghost use Rattle.up_pages.specs.Frames.{count_kind};
ghost use Rattle.up_pages.specs.Pages.{page_at, size_of, frame_of, held_by};
ghost use Rattle.up_pages.specs.declared.page.Page.TheVariants.{Absent};
ghost use Rattle.up_queues.specs.Queue.{find_page};
ghost use Rattle.up_model.specs.Deeds.{has_page};
ghost use Rattle.up_model.specs.States.{plain};
ghost use Rattle.up_model.specs.Concerns.{concerns, keeps_asks, keeps_spent, keeps_roles, keeps_modified, keeps_size};
ghost use Rattle.up_model.specs.Changes.{Goes, IsDue};
ghost use Rattle.up_object.specs.Parts.{BankPair, HasOwn};
ghost use Rattle.up_object.specs.Change.{AllOwn};
ghost use Rattle.up_object.specs.Numbers.{begin_in};
ghost use Rattle.up_object.specs.Whole.{held, with_entry};

use crate::changing::take_room;
use crate::closing::leaves_left;
use crate::numbers::Numbers;
use crate::object::Object;
use std::alloc::{AllocError, Global};
use up_bank::Frame;
use up_model::{Entry, Log};
use up_num::{Memory, PageNo, PageSeq};
use up_pages::{Frames, PageList};
use up_queues::Queues;

/// Takes a page out, where it is one of the object's, and gives its frame.
fn take_held(pages: &mut PageList, page: PageNo) -> Option<Frame>
    requires ready { 0 < pages.old.spare }
    ensures back { result ≡ frame_of (page_at pages.old page.0) }
    ensures pages { (p : ℕ) → page_at pages.new p ≡ cond (page.0 == p) Absent (page_at pages.old p) }
    ensures size { size_of pages.new ≡ size_of pages.old }
    ensures spare { pages.old.spare ≤ pages.new.spare + 1 }
    ensures kinds { (kind : FrameKindValue) → count_kind kind (option_to_list result) + held_by kind pages.new ≡ held_by kind pages.old }
{
    if pages.size() <= page.0 {
        return None;
    }
    pages.take(page)
}

/// Takes a page out, and out of the queues. Its frame comes back.
fn take_page(pages: &mut PageList, queues: &mut Queues, back: &mut Frames, page: PageNo)
    requires ready { 0 < pages.old.spare }
    requires room { length back.old.items < back.old.room }
    ensures pages { (p : ℕ) → page_at pages.new p ≡ cond (page.0 == p) Absent (page_at pages.old p) }
    ensures size { size_of pages.new ≡ size_of pages.old }
    ensures spare { pages.old.spare ≤ pages.new.spare + 1 }
    ensures queue { (p : ℕ) → find_page queues.new.items p ≡ cond (page.0 == p) None (find_page queues.old.items p) }
    ensures places { queues.new.room ≡ queues.old.room }
    ensures back { back.new.items ≡ back.old.items ++ option_to_list (frame_of (page_at pages.old page.0)) }
    ensures room { back.new.room ≡ back.old.room }
    ensures kinds { (kind : FrameKindValue) → count_kind kind back.new.items + held_by kind pages.new ≡ count_kind kind back.old.items + held_by kind pages.old }
{
    let displaced = take_held(pages, page);
    back.put_some(displaced);
    queues.drop_page(page);
}

/// Takes the pages of a list out, one after the other.
fn take_pages(pages: &mut PageList, queues: &mut Queues, back: &mut Frames, list: &[PageNo])
    requires ready { length list.now ≤ pages.old.spare }
    requires room { length back.old.items + length list.now ≤ back.old.room }
    ensures pages { (p : ℕ) → page_at pages.new p ≡ cond (has_page list.now p) Absent (page_at pages.old p) }
    ensures size { size_of pages.new ≡ size_of pages.old }
    ensures queue { (p : ℕ) → find_page queues.new.items p ≡ cond (has_page list.now p) None (find_page queues.old.items p) }
    ensures places { queues.new.room ≡ queues.old.room }
    ensures kinds { (kind : FrameKindValue) → count_kind kind back.new.items + held_by kind pages.new ≡ count_kind kind back.old.items + held_by kind pages.old }
    ensures own { (banks : BankPair) → ((p : ℕ) → HasOwn banks (page_at pages.old p)) → AllOwn banks back.old.items → AllOwn banks back.new.items }
{
    for page in list {
        take_page(pages, queues, back, *page);
    }
}

/// Takes the room for an entry above those reserved for leaves, and for so many pages that go.
fn make_room(
    entry: &Entry,
    log: &mut Log,
    numbers: &mut Numbers,
    pages: &mut PageList,
    back: &mut Frames,
    leaves: u32,
    count: usize,
) -> Result<(), Memory>
    requires few { leaves ≤ 128 }
    ensures entries { log.new.entries ≡ log.old.entries }
    ensures spare { log.old.spare ≤ log.new.spare }
    ensures begins { numbers.new.begins ≡ numbers.old.begins }
    ensures pages { (p : ℕ) → page_at pages.new p ≡ page_at pages.old p }
    ensures size { size_of pages.new ≡ size_of pages.old }
    ensures items { back.new.items ≡ back.old.items }
    ensures enough { OnOk result (leaves < log.new.spare) }
    ensures place { OnOk result (length (option_to_list (begin_in entry.now)) ≤ numbers.new.spare) }
    ensures ready { OnOk result (count ≤ pages.new.spare) }
    ensures room { OnOk result (length back.new.items + count ≤ back.new.room) }
{
    let Ok(count) = u32::try_from(count) else {
        return Err(AllocError);
    };
    take_room(entry, log, numbers, pages, back, leaves, count, 0)
}

/// Makes a call that takes the pages of a list away, in any order, and changes nothing else. Their frames come back.
pub fn evict(
    object: Object,
    alloc: Global,
    entry: Entry,
    list: &PageSeq,
) -> Result<(Object, Frames), (Memory, Object)>
    requires goes { (p : ℕ) → has_page list.now p ≡ true → Goes object.birth entry object.journal p }
    requires bare { (p : ℕ) → has_page list.now p ≡ true → plain object.birth object.journal p ≡ false }
    requires pages { (p : ℕ) → has_page list.now p ≡ false → concerns object.birth object.journal entry p ≡ false }
    requires asks { keeps_asks entry ≡ true }
    requires spent { keeps_spent entry ≡ true }
    requires tally { (keeps_roles entry && keeps_modified entry) ≡ true }
    requires size { keeps_size entry ≡ true }
    requires due { IsDue object.birth entry object.journal }
    ensures ok { IfOk result (λ done. done.0 ≡ with_entry object entry) }
    ensures frames { IfOk result (λ done. (kind : FrameKindValue) → count_kind kind done.1.items + held object.birth (entry ∷ object.journal) kind ≡ held object.birth object.journal kind) }
    ensures own { IfOk result (λ done. AllOwn object.banks done.1.items) }
    ensures same { IfErr result (λ failed. failed.1 ≡ object) }
{
    let Object {
        birth,
        banks,
        mut pages,
        marks,
        mut queues,
        asks,
        tally,
        mut numbers,
        newest,
        leaves,
        mut log,
    } = object;
    let mut back = Frames::new(alloc);
    let left = leaves_left(&entry.call, leaves);
    if let Err(memory) = make_room(
        &entry,
        &mut log,
        &mut numbers,
        &mut pages,
        &mut back,
        left,
        list.len(),
    ) {
        back.end();
        let object = Object {
            birth,
            banks,
            pages,
            marks,
            queues,
            asks,
            tally,
            numbers,
            newest,
            leaves,
            log,
        };
        return Err((memory, object));
    }
    take_pages(&mut pages, &mut queues, &mut back, list.as_slice());
    let newest = entry.epoch.max(newest);
    numbers.add(&entry);
    log.push(entry);
    let object = Object {
        birth,
        banks,
        pages,
        marks,
        queues,
        asks,
        tally,
        numbers,
        newest,
        leaves: left,
        log,
    };
    Ok((object, back))
}
