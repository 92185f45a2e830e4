ghost use Rattle.std.specs.Prelude.{◌≡◌, ◌+◌, ◌<◌, [], true, IfOk, IfErr, OnOk, OnErr};
ghost use Rattle.up_num.specs.Span.{covers};
ghost use Rattle.up_model.specs.Attempts.{accepts};
ghost use Rattle.up_model.specs.Size.{range_fits};
ghost use Rattle.up_model.specs.Looks as looks;
ghost use Rattle.up_model.specs.Looks.{begun_look, with_state};
ghost use Rattle.up_model.specs.Reply as replies;
ghost use Rattle.up_model.specs.declared.entry.Call.TheVariants.{Begin};
ghost use Rattle.up_object.specs.Parts.{shown};
ghost use Rattle.up_object.specs.Change.{next, AllOwn};
ghost use Rattle.up_object.specs.Whole.{after};
ghost use Rattle.up_object.specs.Answered.{RepliesAsDue, FramesBalance};
ghost use Rattle.up_object.specs.OneCall.{DoesCall, further};
ghost use Rattle.up_clean.specs.Ends.{begun_reply};

use core::mem::replace_with;
use std::alloc::Global;
use up_bank::FrameKind;
use up_model::{Call, Reply};
use up_num::{PageRange, PageState, Refusal};
use up_object::changing::{Changing, open};
use up_object::{By, Declined, Object, Step, Stepped, count_of, decline, end_of, first_of};
use up_pages::{Frames, Look};

/// Begins the writeback of the unclean pages of a range, or of its zero pages alone. It answers `Done`, on a numbered object `Began` with
/// the number that an end names, or `Refused(Range)` where the range passes the object's size.
pub fn begin(
    object: &mut Object,
    alloc: Global,
    who: u32,
    epoch: u64,
    range: PageRange,
    zero: bool,
) -> Step
    ensures reply { RepliesAsDue object.old who epoch (Begin range zero) result }
    ensures object { OnOk result (object.new ≡ after object.old who epoch (Begin range zero)) }
    ensures frames { FramesBalance object.old object.new [] result }
    ensures own { IfOk result (λ s. AllOwn object.old.banks s.back.items) }
    ensures same { OnErr result (object.new ≡ object.old) }
    ensures back { IfErr result (λ failed. failed.1.items ≡ []) }
{
    let by = By { who, epoch };
    let beginning = Beginning {
        alloc,
        by,
        range,
        zero,
    };
    replace_with(object, beginning, begin_range)
}

#[derive(Clone, Copy)]
struct Beginning {
    alloc: Global,
    by: By,
    range: PageRange,
    zero: bool,
}

impl Beginning {
    fn call(&self) -> Call
        ensures { result ≡ Begin self.now.range self.now.zero }
    {
        Call::Begin {
            range: self.range,
            zero: self.zero,
        }
    }
}

fn begin_range(object: Object, beginning: Beginning) -> (Object, Step)
    ensures { DoesCall object result.0 result.1 beginning.by.who beginning.by.epoch (Begin beginning.range beginning.zero) [] }
{
    let alloc = beginning.alloc;
    if object.has_range(beginning.range) {
        return begin_within(object, beginning);
    }
    let why = Declined::Refused(Refusal::Range);
    let none = Frames::new(alloc);
    decline(
        object,
        alloc,
        beginning.by,
        beginning.call(),
        why,
        FrameKind::Ordinary,
        none,
    )
}

fn begin_within(object: Object, beginning: Beginning) -> (Object, Step)
    requires fits { range_fits object.birth object.journal beginning.range ≡ true }
    ensures { DoesCall object result.0 result.1 beginning.by.who beginning.by.epoch (Begin beginning.range beginning.zero) [] }
{
    let alloc = beginning.alloc;
    let first = first_of(beginning.range);
    let limit = end_of(beginning.range);
    let number = number_of(&object);
    let entry = beginning.by.entry(beginning.call(), begun(number));
    let none = Frames::new(alloc);
    match open(
        object,
        alloc,
        entry,
        FrameKind::Ordinary,
        none,
        first,
        limit,
    ) {
        Ok(mut changing) => {
            begin_pages(&mut changing, beginning.range, beginning.zero);
            let (object, back) = changing.close(first, limit);
            let reply = begun(number);
            (object, Ok(Stepped { reply, back }))
        }
        Err((memory, object, given)) => (object, Err((memory, given))),
    }
}

/// The number that a begin gets, on a numbered object.
fn number_of(object: &Object) -> Option<u64>
    ensures { begun_reply result ≡ replies.begin_reply object.now.birth object.now.journal }
{
    if object.born().numbered {
        Some(object.next_number())
    } else {
        None
    }
}

/// What a begin answers, by the number that it gets.
fn begun(number: Option<u64>) -> Reply
    ensures { result ≡ begun_reply number }
{
    match number {
        None => Reply::Done,
        Some(number) => Reply::Began(number),
    }
}

/// Begins the writeback of the pages of a range.
fn begin_pages(changing: &mut Changing, range: PageRange, only_zero: bool)
    requires call { changing.old.entry.call ≡ Begin range only_zero }
    requires accepted { accepts changing.old.entry.reply ≡ true }
    requires at { changing.old.done.mark ≡ range.first }
    requires limit { changing.old.done.limit ≡ range.first + range.count }
    ensures { changing.new ≡ further range.count changing.old }
{
    for _place in 0..count_of(range) {
        begin_page(changing, range, only_zero);
    }
}

/// Begins the writeback of the page at the mark.
fn begin_page(changing: &mut Changing, range: PageRange, only_zero: bool)
    requires left { changing.old.done.mark < changing.old.done.limit }
    requires call { changing.old.entry.call ≡ Begin range only_zero }
    requires accepted { accepts changing.old.entry.reply ≡ true }
    requires inside { covers range changing.old.done.mark ≡ true }
    ensures { changing.new ≡ next changing.old }
{
    let state = begun_state(changing.look(), only_zero);
    changing.set_state(state);
}

/// The state that a page has once a writeback has begun, which counts for zero pages alone where `only_zero` says so.
fn begun_state(look: Look, only_zero: bool) -> PageState
    ensures { with_state result (shown look) ≡ begun_look only_zero (shown look) }
{
    match look {
        Look::Absent => PageState::Clean,
        Look::Zero(state) => awaiting(state),
        Look::Held(state, _) => { if only_zero { state } else { awaiting(state) } }
    }
}

fn awaiting(state: PageState) -> PageState
    ensures { result ≡ looks.begun_state state }
{
    match state {
        PageState::Clean => PageState::Clean,
        _ => PageState::AwaitingClean,
    }
}
