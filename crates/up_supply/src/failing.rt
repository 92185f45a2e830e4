//! Fails of pages.
ghost use Rattle.std.specs.Prelude.{◌≡◌, ◌+◌, ◌≤◌, [], ◌∷◌, IfOk, IfErr, OnOk, OnErr, Some, None};
ghost use Rattle.up_num.specs.declared.answers.Outcome.TheVariants.{Failed as FailedOutcome};
ghost use Rattle.up_model.specs.declared.entry.Call.TheVariants.{Fail as FailCall};
ghost use Rattle.up_model.specs.declared.entry.Reply.TheVariants.{Woke as WokeReply};
ghost use Rattle.up_model.specs.Reply as replies;
ghost use Rattle.up_model.specs.Size.{size};
ghost use Rattle.up_model.specs.Tickets.{woken};
ghost use Rattle.up_object.specs.Change.{AllOwn};
ghost use Rattle.up_object.specs.Whole.{after};
ghost use Rattle.up_object.specs.Answered.{RepliesAsDue, FramesBalance};
ghost use Rattle.up_object.specs.OneCall.{DoesCall};
ghost use Rattle.up_supply.specs.Calls.{refuses_fail, read_failed, dirty_failed};

use core::mem::replace_with;
use std::alloc::Global;
use up_asks::Event;
use up_bank::FrameKind;
use up_model::{Call, Reply};
use up_num::{AskKind, Code, Memory, Outcome, PageRange, Refusal, Woken};
use up_object::changing::open_asking;
use up_object::{By, Declined, Object, Step, Stepped, decline, end_of, first_of};
use up_pages::Frames;

/// Fails all accesses that wait now for pages of a range, with a code. It answers `Woke`.
pub fn fail(
    object: &mut Object,
    alloc: Global,
    who: u32,
    epoch: u64,
    range: PageRange,
    code: Code,
) -> Step
    ensures reply { RepliesAsDue object.old who epoch (FailCall range code) result }
    ensures object { OnOk result (object.new ≡ after object.old who epoch (FailCall range code)) }
    ensures frames { FramesBalance object.old object.new [] result }
    ensures own { IfOk result (λ step. AllOwn object.old.banks step.back.items) }
    ensures same { OnErr result (object.new ≡ object.old) }
    ensures back { IfErr result (λ failed. failed.1.items ≡ []) }
{
    let by = By { who, epoch };
    let failing = Failing {
        alloc,
        by,
        range,
        code,
    };
    replace_with(object, failing, fail_pages)
}

#[derive(Drop)]
struct Failing {
    alloc: Global,
    by: By,
    range: PageRange,
    code: Code,
}

impl Failing {
    fn call(&self) -> Call
        ensures { result ≡ FailCall self.now.range self.now.code }
    {
        Call::Fail {
            range: self.range,
            code: self.code,
        }
    }

    fn event(&self, kind: AskKind) -> Event
        ensures { result ≡ record { kind = kind; range = self.now.range; outcome = FailedOutcome self.now.code } }
    {
        Event {
            kind,
            range: self.range,
            outcome: Outcome::Failed(self.code),
        }
    }
}

impl Failing {
    /// All who wait for the pages are failed.
    fn events(&self) -> [Event; 2]
        ensures { result ≡ read_failed self.now.range self.now.code ∷ dirty_failed self.now.range self.now.code ∷ [] }
    {
        [self.event(AskKind::Read), self.event(AskKind::Dirty)]
    }

    /// The tickets that the fail wakes.
    fn woken(&self, object: &Object) -> Result<Woken, Memory>
        ensures { IfOk result (λ woke. woke ≡ woken object.now.birth object.now.journal (FailCall self.now.range self.now.code)) }
    {
        let events = self.events();
        let woke = object.waking(self.alloc, &events)?;
        Ok(woke)
    }
}

fn fail_pages(object: Object, failing: Failing) -> (Object, Step)
    ensures { DoesCall object result.0 result.1 failing.by.who failing.by.epoch (FailCall failing.range failing.code) [] }
{
    match refusal_of(&object, &failing) {
        Some(why) => refuse_fail(object, failing, why),
        None => wake_failed(object, failing),
    }
}

/// Why a fail is refused, if it is.
fn refusal_of(object: &Object, failing: &Failing) -> Option<Refusal>
    ensures { result ≡ refuses_fail object.now.birth object.now.journal failing.now.range }
{
    if !object.has_range(failing.range) {
        Some(Refusal::Range)
    } else if object.detached() {
        Some(Refusal::Detached)
    } else {
        None
    }
}

fn refuse_fail(object: Object, failing: Failing, why: Refusal) -> (Object, Step)
    requires why { refuses_fail object.birth object.journal failing.range ≡ Some why }
    ensures { DoesCall object result.0 result.1 failing.by.who failing.by.epoch (FailCall failing.range failing.code) [] }
{
    let alloc = failing.alloc;
    let call = failing.call();
    decline(
        object,
        alloc,
        failing.by,
        call,
        Declined::Refused(why),
        FrameKind::Ordinary,
        Frames::new(alloc),
    )
}

/// The fail is accepted: all who wait for its pages are woken.
fn wake_failed(object: Object, failing: Failing) -> (Object, Step)
    requires accepted { refuses_fail object.birth object.journal failing.range ≡ None }
    ensures { DoesCall object result.0 result.1 failing.by.who failing.by.epoch (FailCall failing.range failing.code) [] }
{
    let Ok(answer) = failing.woken(&object) else {
        return (object, Err((Memory {}, Frames::new(failing.alloc))));
    };
    let Ok(noted) = failing.woken(&object) else {
        return (object, Err((Memory {}, Frames::new(failing.alloc))));
    };
    fail_and_wake(object, failing, answer, noted)
}

fn fail_and_wake(object: Object, failing: Failing, answer: Woken, noted: Woken) -> (Object, Step)
    requires fits { failing.range.first + failing.range.count ≤ size object.birth object.journal }
    requires due { replies.reply object.birth object.journal failing.by.who failing.by.epoch (FailCall failing.range failing.code) ≡ WokeReply answer }
    requires noted { noted ≡ answer }
    ensures { DoesCall object result.0 result.1 failing.by.who failing.by.epoch (FailCall failing.range failing.code) [] }
{
    let alloc = failing.alloc;
    let events = failing.events();
    let entry = failing.by.entry(failing.call(), Reply::Woke(noted));
    match open_asking(
        object,
        alloc,
        entry,
        FrameKind::Ordinary,
        Frames::new(alloc),
        0,
        0,
        0,
        2,
    ) {
        Ok(mut changing) => {
            changing.resolve(&events);
            let (object, back) = changing.close(first_of(failing.range), end_of(failing.range));
            let reply = Reply::Woke(answer);
            (object, Ok(Stepped { reply, back }))
        }
        Err((memory, object, frames)) => (object, Err((memory, frames))),
    }
}
