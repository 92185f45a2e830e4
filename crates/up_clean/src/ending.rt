ghost use Rattle.std.specs.Prelude.{◌≡◌, ◌+◌, ◌<◌, ◌^◌, [], ◌∷◌, ◌++◌, not, true, false, cond, map, is_some, IfOk, IfErr, OnOk, OnErr, IsNone, IsTrue};
ghost use Rattle.up_num.specs.Span.{covers};
ghost use Rattle.up_span.specs.Pages.{list_pages};
ghost use Rattle.up_model.specs.Attempts.{accepts};
ghost use Rattle.up_num.specs.declared.answers.Refusal.TheVariants.{Range as RangeRefusal};
ghost use Rattle.up_model.specs.Size.{range_fits};
ghost use Rattle.up_model.specs.Deeds.{named};
ghost use Rattle.up_model.specs.States.{empty_at_end};
ghost use Rattle.up_model.specs.Looks.{ended_look, with_state};
ghost use Rattle.up_model.specs.Tickets.{woken};
ghost use Rattle.up_model.specs.Reply as replies;
ghost use Rattle.up_model.specs.declared.entry.Call.TheVariants.{End};
ghost use Rattle.up_model.specs.declared.entry.Reply.{Reply as ReplyValue};
ghost use Rattle.up_model.specs.declared.entry.Reply.TheVariants.{Woke};
ghost use Rattle.up_object.specs.Parts.{shown};
ghost use Rattle.up_object.specs.Change.{next, AllOwn};
ghost use Rattle.up_object.specs.Whole.{after};
ghost use Rattle.up_object.specs.Answered.{RepliesAsDue, FramesBalance};
ghost use Rattle.up_object.specs.OneCall.{DoesCall, further};
ghost use Rattle.up_clean.specs.Ends.{goes_at_end, freed_page};
ghost use Rattle.up_clean.specs.Dirties.{or_refused};

use core::mem::replace_with;
use std::alloc::Global;
use up_asks::Event;
use up_bank::FrameKind;
use up_model::{Call, Reply};
use up_num::{AskKind, Memory, Outcome, PageNo, PageRange, PageState, Refusal, Woken};
use up_object::changing::{Changing, open_asking};
use up_object::{
    By, Declined, Object, Step, Stepped, count_of, decline, end_of, first_of, has_end,
};
use up_pages::{Frames, Look};

/// Ends the writeback of a range: what awaits that is clean, and zero pages that await it go. On a numbered object it names the begin that
/// it ends, and is for the pages for which that one counts and that weren't dirtied since. It answers `Woke` with the tickets of those who
/// waited to make a page dirty that goes, or why it is refused: `Range` where the range passes the object's size, `NotBegun` where no begin
/// got the number.
pub fn end(
    object: &mut Object,
    alloc: Global,
    who: u32,
    epoch: u64,
    range: PageRange,
    of: Option<u64>,
) -> Step
    requires proper { IsTrue (replies.proper object.old.birth object.old.journal who (End range of)) }
    ensures reply { RepliesAsDue object.old who epoch (End range of) result }
    ensures object { OnOk result (object.new ≡ after object.old who epoch (End range of)) }
    ensures frames { FramesBalance object.old object.new [] result }
    ensures own { IfOk result (λ s. AllOwn object.old.banks s.back.items) }
    ensures same { OnErr result (object.new ≡ object.old) }
    ensures back { IfErr result (λ failed. failed.1.items ≡ []) }
{
    let by = By { who, epoch };
    let ending = Ending {
        alloc,
        by,
        range,
        of,
    };
    replace_with(object, ending, end_range)
}

#[derive(Clone, Copy)]
struct Ending {
    alloc: Global,
    by: By,
    range: PageRange,
    of: Option<u64>,
}

impl Ending {
    fn call(&self) -> Call
        ensures { result ≡ End self.now.range self.now.of }
    {
        Call::End {
            range: self.range,
            of: self.of,
        }
    }
}

fn end_range(object: Object, ending: Ending) -> (Object, Step)
    requires proper { IsTrue (replies.proper object.birth object.journal ending.by.who (End ending.range ending.of)) }
    ensures { DoesCall object result.0 result.1 ending.by.who ending.by.epoch (End ending.range ending.of) [] }
{
    let alloc = ending.alloc;
    let Some(why) = refusal(&object, ending.range, ending.of) else {
        return end_within(object, ending);
    };
    let none = Frames::new(alloc);
    decline(
        object,
        alloc,
        ending.by,
        ending.call(),
        Declined::Refused(why),
        FrameKind::Ordinary,
        none,
    )
}

/// Why an end is refused.
fn refusal(object: &Object, range: PageRange, of: Option<u64>) -> Option<Refusal>
    ensures reply { (next : ReplyValue) → replies.refuse_where (not (range_fits object.now.birth object.now.journal range)) RangeRefusal (replies.refuse_unbegun object.now.journal of next) ≡ or_refused result next }
    ensures fits { IsNone result → range_fits object.now.birth object.now.journal range ≡ true }
{
    if !object.has_range(range) {
        return Some(Refusal::Range);
    }
    unbegun(object, of)
}

/// The refusal of a number that no begin got.
fn unbegun(object: &Object, of: Option<u64>) -> Option<Refusal>
    ensures { (next : ReplyValue) → replies.refuse_unbegun object.now.journal of next ≡ or_refused result next }
{
    match of {
        None => None,
        Some(number) => {
            if object.has_begun(number) {
                return None;
            }
            Some(Refusal::NotBegun(number))
        }
    }
}

fn end_within(object: Object, ending: Ending) -> (Object, Step)
    requires proper { IsTrue (replies.proper object.birth object.journal ending.by.who (End ending.range ending.of)) }
    requires fits { range_fits object.birth object.journal ending.range ≡ true }
    requires due { replies.reply object.birth object.journal ending.by.who ending.by.epoch (End ending.range ending.of) ≡ Woke (woken object.birth object.journal (End ending.range ending.of)) }
    ensures { DoesCall object result.0 result.1 ending.by.who ending.by.epoch (End ending.range ending.of) [] }
{
    let alloc = ending.alloc;
    let Ok(events) = freed_by_end(&object, alloc, ending.range, ending.of) else {
        return (object, Err((Memory {}, Frames::new(alloc))));
    };
    let Ok(woke) = object.waking(alloc, &events) else {
        return (object, Err((Memory {}, Frames::new(alloc))));
    };
    let Ok(noted) = woke.copy(alloc) else {
        return (object, Err((Memory {}, Frames::new(alloc))));
    };
    end_freeing(object, ending, &events, woke, noted)
}

/// Ends the writeback, where these events happen to those who wait, and these tickets wake.
fn end_freeing(
    object: Object,
    ending: Ending,
    events: &Vec<Event>,
    woke: Woken,
    noted: Woken,
) -> (Object, Step)
    requires proper { IsTrue (replies.proper object.birth object.journal ending.by.who (End ending.range ending.of)) }
    requires fits { range_fits object.birth object.journal ending.range ≡ true }
    requires events { events.now.items ≡ map freed_page (list_pages (empty_at_end object.birth object.journal (named object.birth (End ending.range ending.of))) ending.range.first ending.range.count) }
    requires due { replies.reply object.birth object.journal ending.by.who ending.by.epoch (End ending.range ending.of) ≡ Woke woke }
    requires notes { noted ≡ woke }
    ensures { DoesCall object result.0 result.1 ending.by.who ending.by.epoch (End ending.range ending.of) [] }
{
    let alloc = ending.alloc;
    let none = Frames::new(alloc);
    let first = first_of(ending.range);
    let limit = end_of(ending.range);
    let entry = ending.by.entry(ending.call(), Reply::Woke(noted));
    let changes = count_of(ending.range);
    match open_asking(
        object,
        alloc,
        entry,
        FrameKind::Ordinary,
        none,
        first,
        limit,
        0,
        changes,
    ) {
        Ok(mut changing) => {
            end_pages(&mut changing, ending.range, ending.of);
            changing.resolve(events);
            let (object, back) = changing.close(first, limit);
            let reply = Reply::Woke(woke);
            (object, Ok(Stepped { reply, back }))
        }
        Err((memory, object, given)) => (object, Err((memory, given))),
    }
}

/// What an end over a range makes of those who wait: for each page that goes, leave for those who wait to make it dirty.
fn freed_by_end(
    object: &Object,
    alloc: Global,
    range: PageRange,
    of: Option<u64>,
) -> Result<Vec<Event>, Memory>
    requires proper { replies.same_flag object.now.birth.numbered (is_some of) ≡ true }
    ensures { IfOk result (λ events. events.items ≡ map freed_page (list_pages (empty_at_end object.now.birth object.now.journal (named object.now.birth (End range of))) range.first range.count)) }
{
    let first = first_of(range);
    has_end(range);
    let mut events = Vec::new(alloc);
    for place in 0..count_of(range) {
        let page = first + place;
        add_where(&mut events, page, is_emptied(object, page, range, of))?;
    }
    Ok(events)
}

/// Adds the event of a page, where it goes.
fn add_where(events: &mut Vec<Event>, page: u32, goes: bool) -> Result<(), Memory>
    requires { page + 1 < 2 ^ 32 }
    ensures { OnOk result (events.new.items ≡ events.old.items ++ cond goes (freed_page page ∷ []) []) }
{
    if goes {
        let range = PageRange {
            first: page,
            count: 1,
        };
        events.push(Event {
            kind: AskKind::Dirty,
            range,
            outcome: Outcome::Freed,
        })?;
    }
    Ok(())
}

/// Whether an end over this range, which names this begin or none, empties a page of it.
fn is_emptied(object: &Object, page: u32, range: PageRange, of: Option<u64>) -> bool
    requires proper { replies.same_flag object.now.birth.numbered (is_some of) ≡ true }
    ensures { result ≡ empty_at_end object.now.birth object.now.journal (named object.now.birth (End range of)) page }
{
    let page = PageNo(page);
    goes(object.look(page), object.is_ended(page, of))
}

/// Ends the writeback of the pages of a range.
fn end_pages(changing: &mut Changing, range: PageRange, of: Option<u64>)
    requires proper { replies.same_flag changing.old.birth.numbered (is_some of) ≡ true }
    requires call { changing.old.entry.call ≡ End range of }
    requires accepted { accepts changing.old.entry.reply ≡ true }
    requires at { changing.old.done.mark ≡ range.first }
    requires limit { changing.old.done.limit ≡ range.first + range.count }
    ensures { changing.new ≡ further range.count changing.old }
{
    for _place in 0..count_of(range) {
        end_page(changing, range, of);
    }
}

/// Ends the writeback of the page at the mark.
fn end_page(changing: &mut Changing, range: PageRange, of: Option<u64>)
    requires proper { replies.same_flag changing.old.birth.numbered (is_some of) ≡ true }
    requires left { changing.old.done.mark < changing.old.done.limit }
    requires call { changing.old.entry.call ≡ End range of }
    requires accepted { accepts changing.old.entry.reply ≡ true }
    requires inside { covers range changing.old.done.mark ≡ true }
    ensures { changing.new ≡ next changing.old }
{
    let look = changing.look();
    let ended = changing.is_ended(of);
    if goes(look, ended) {
        changing.drop_page();
    } else {
        changing.set_state(ended_state(look, ended));
    }
}

/// Whether a page goes at an end: a zero page that the end is for, and that isn't clean.
fn goes(look: Look, ended: bool) -> bool
    ensures { result ≡ goes_at_end ended (shown look) }
{
    match look {
        Look::Zero(_) => ended,
        _ => false,
    }
}

/// The state that a page which stays has after an end, by whether the end is for it.
fn ended_state(look: Look, ended: bool) -> PageState
    requires { goes_at_end ended (shown look) ≡ false }
    ensures { with_state result (shown look) ≡ ended_look ended (shown look) }
{
    match look {
        Look::Absent => PageState::Clean,
        Look::Zero(state) => state,
        Look::Held(state, _) => { if ended { PageState::Clean } else { state } }
    }
}
