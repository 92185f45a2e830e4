//! Supplies of pages.
ghost use Rattle.std.specs.Prelude.{◌≡◌, ℕ, ◌+◌, ◌<◌, ◌≤◌, List, length, IsTrue, IfOk, IfErr, OnOk, OnErr, Some, None};
ghost use Rattle.up_bank.specs.declared.kind.FrameKind.TheVariants.{Ordinary as OrdinaryKind};
ghost use Rattle.up_model.specs.declared.entry.Call.TheVariants.{Supply as SupplyCall};
ghost use Rattle.up_model.specs.declared.entry.Reply.TheVariants.{Took as TookReply};
ghost use Rattle.up_model.specs.Reply as replies;
ghost use Rattle.up_model.specs.Size.{size};
ghost use Rattle.up_model.specs.Tickets.{woken};
ghost use Rattle.up_object.specs.Parts.{bank_of};
ghost use Rattle.up_object.specs.Change.{AllAre, AllOwn};
ghost use Rattle.up_object.specs.Whole.{after};
ghost use Rattle.up_object.specs.Answered.{RepliesAsDue, FramesBalance};
ghost use Rattle.up_object.specs.OneCall.{brought_of, frames_of, DoesCall};
ghost use Rattle.up_supply.specs.Calls.{supply_call, supply_event, refuses_supply, IsFull};
ghost use Rattle.up_supply.specs.Fillings.{Filling, filled};

use core::mem::replace_with;
use std::alloc::Global;
use up_asks::Event;
use up_bank::FrameKind;
use up_model::{Brought, Call, Reply};
use up_num::{AskKind, Bytes, Memory, Outcome, PageRange, Refusal, Woken};
use up_object::changing::{Changing, open_asking};
use up_object::{
    By, Declined, FramesIn, Object, Step, Stepped, count_of, decline, end_of, first_of,
};
use up_pages::{Frames, Look};

/// Fills the absent pages of a range with bytes, each in a given frame, and wakes those who wait to read them. Pages that are
/// there stay. It answers `Took`; `Refused(NoFrames)` where a scan is handed in.
pub fn supply(
    object: &mut Object,
    alloc: Global,
    who: u32,
    epoch: u64,
    range: PageRange,
    bytes: Bytes,
    frames: FramesIn,
) -> Step
    requires proper { IsTrue (replies.proper object.old.birth object.old.journal who
        (SupplyCall range bytes (brought_of frames))) }
    requires own { AllAre (bank_of object.old.banks OrdinaryKind) (frames_of frames) }
    ensures reply { RepliesAsDue object.old who epoch (SupplyCall range bytes (brought_of frames)) result }
    ensures object { OnOk result (object.new
        ≡ after object.old who epoch (SupplyCall range bytes (brought_of frames))) }
    ensures frames { FramesBalance object.old object.new (frames_of frames) result }
    ensures own { IfOk result (λ step. AllOwn object.old.banks step.back.items) }
    ensures same { OnErr result (object.new ≡ object.old) }
    ensures back { IfErr result (λ failed. failed.1.items ≡ frames_of frames) }
{
    let brought = frames.brought();
    let frames = frames.into_frames(alloc);
    let by = By { who, epoch };
    let supplying = Supplying {
        alloc,
        by,
        range,
        brought,
    };
    replace_with(object, (supplying, bytes, frames), supply_pages)
}

/// A supply, as it was called, without its bytes.
#[derive(Drop)]
pub(crate) struct Supplying {
    pub(crate) alloc: Global,
    pub(crate) by: By,
    pub(crate) range: PageRange,
    pub(crate) brought: Brought,
}

impl Supplying {
    fn call(&self, bytes: Bytes) -> Call
        ensures { result ≡ supply_call self.now bytes }
    {
        Call::Supply {
            range: self.range,
            bytes,
            brought: self.brought,
        }
    }

    fn event(&self) -> Event
        ensures { result ≡ supply_event self.now.range }
    {
        Event {
            kind: AskKind::Read,
            range: self.range,
            outcome: Outcome::Freed,
        }
    }
}

fn is_scan(brought: Brought) -> bool
    ensures { result ≡ replies.is_scan brought }
{
    match brought {
        Brought::Scanned => true,
        _ => false,
    }
}

fn supply_pages(object: Object, given: (Supplying, Bytes, Frames)) -> (Object, Step)
    requires proper { IsTrue (replies.proper object.birth object.journal given.0.by.who (supply_call given.0 given.1)) }
    requires own { AllAre (bank_of object.banks OrdinaryKind) given.2.items }
    requires frames { length given.2.items ≡ replies.frames_in given.0.brought }
    ensures { DoesCall object result.0 result.1 given.0.by.who given.0.by.epoch (supply_call given.0 given.1) given.2.items }
{
    let (supplying, bytes, frames) = given;
    match refusal_of(&object, &supplying) {
        Some(why) => refuse_supply(object, supplying, bytes, why, frames),
        None => fill_range(object, supplying, bytes, frames),
    }
}

/// Why a supply is refused, if it is.
fn refusal_of(object: &Object, supplying: &Supplying) -> Option<Refusal>
    ensures { result ≡ refuses_supply object.now.birth object.now.journal supplying.now }
{
    if !object.has_range(supplying.range) {
        Some(Refusal::Range)
    } else if object.detached() {
        Some(Refusal::Detached)
    } else if is_scan(supplying.brought) {
        Some(Refusal::NoFrames)
    } else {
        None
    }
}

fn refuse_supply(
    object: Object,
    supplying: Supplying,
    bytes: Bytes,
    why: Refusal,
    frames: Frames,
) -> (Object, Step)
    requires proper { IsTrue (replies.proper object.birth object.journal supplying.by.who (supply_call supplying bytes)) }
    requires own { AllAre (bank_of object.banks OrdinaryKind) frames.items }
    requires why { refuses_supply object.birth object.journal supplying ≡ Some why }
    ensures { DoesCall object result.0 result.1 supplying.by.who supplying.by.epoch (supply_call supplying bytes) frames.items }
{
    let call = supplying.call(bytes);
    decline(
        object,
        supplying.alloc,
        supplying.by,
        call,
        Declined::Refused(why),
        FrameKind::Ordinary,
        frames,
    )
}

impl Supplying {
    /// The tickets that the supply wakes, whatever its bytes.
    fn woken(&self, object: &Object) -> Result<Woken, Memory>
        ensures { IfOk result (λ woke. (bytes : List ℕ) → woke ≡ woken object.now.birth object.now.journal (supply_call self.now bytes)) }
    {
        let events = [self.event()];
        let woke = object.waking(self.alloc, &events)?;
        Ok(woke)
    }
}

/// The supply is accepted: absent pages get their bytes, and readers are freed.
fn fill_range(object: Object, supplying: Supplying, bytes: Bytes, frames: Frames) -> (Object, Step)
    requires proper { IsTrue (replies.proper object.birth object.journal supplying.by.who (supply_call supplying bytes)) }
    requires own { AllAre (bank_of object.banks OrdinaryKind) frames.items }
    requires frames { length frames.items ≡ replies.frames_in supplying.brought }
    requires accepted { refuses_supply object.birth object.journal supplying ≡ None }
    ensures { DoesCall object result.0 result.1 supplying.by.who supplying.by.epoch (supply_call supplying bytes) frames.items }
{
    let Ok(answer) = supplying.woken(&object) else {
        return (object, Err((Memory {}, frames)));
    };
    let Ok(noted) = supplying.woken(&object) else {
        return (object, Err((Memory {}, frames)));
    };
    let pages = object.count_absent(supplying.range);
    let taken = Taken {
        pages,
        answer,
        noted,
    };
    fill_and_wake(object, supplying, bytes, frames, taken)
}

/// What a supply answers: once for its caller, and once for the journal.
#[derive(Drop)]
struct Taken {
    pages: u32,
    answer: Woken,
    noted: Woken,
}

fn fill_and_wake(
    object: Object,
    supplying: Supplying,
    bytes: Bytes,
    frames: Frames,
    taken: Taken,
) -> (Object, Step)
    requires proper { IsTrue (replies.proper object.birth object.journal supplying.by.who (supply_call supplying bytes)) }
    requires own { AllAre (bank_of object.banks OrdinaryKind) frames.items }
    requires full { IsFull supplying bytes frames.items }
    requires fits { supplying.range.first + supplying.range.count ≤ size object.birth object.journal }
    requires due { replies.reply object.birth object.journal supplying.by.who supplying.by.epoch (supply_call supplying bytes) ≡ TookReply taken.pages taken.answer }
    requires noted { taken.noted ≡ taken.answer }
    ensures { DoesCall object result.0 result.1 supplying.by.who supplying.by.epoch (supply_call supplying bytes) frames.items }
{
    let alloc = supplying.alloc;
    let Taken {
        pages,
        answer,
        noted,
    } = taken;
    let Ok(kept) = bytes.copy(alloc) else {
        return (object, Err((Memory {}, frames)));
    };
    object.is_legal();
    let events = [supplying.event()];
    let woke = noted;
    let call = supplying.call(kept);
    let entry = supplying.by.entry(call, Reply::Took { pages, woke });
    let first = first_of(supplying.range);
    let end = end_of(supplying.range);
    match open_asking(
        object,
        alloc,
        entry,
        FrameKind::Ordinary,
        frames,
        first,
        end,
        0,
        1,
    ) {
        Ok(mut changing) => {
            fill_all(&mut changing, count_of(supplying.range), bytes.as_slice());
            changing.resolve(&events);
            let (object, back) = changing.close(first, end);
            let woke = answer;
            let reply = Reply::Took { pages, woke };
            (object, Ok(Stepped { reply, back }))
        }
        Err((memory, object, frames)) => (object, Err((memory, frames))),
    }
}

/// Fills those pages of the call that are absent.
fn fill_all(changing: &mut Changing, count: u32, bytes: &[u8])
    requires filling { Filling changing.old bytes.now count 0 }
    requires enough { count ≤ changing.old.given }
    ensures new { changing.new ≡ filled count changing.new.given changing.old }
{
    for place in 0..count {
        fill_one(changing, count, place, bytes);
    }
}

/// Fills the page at a place, unless it is there.
fn fill_one(changing: &mut Changing, count: u32, place: u32, bytes: &[u8])
    requires filling { Filling changing.old bytes.now count place }
    requires within { place < count }
    requires frame { 0 < changing.old.given }
    ensures new { changing.new ≡ filled 1 changing.new.given changing.old }
    ensures given { changing.old.given ≤ changing.new.given + 1 }
{
    match changing.look() {
        Look::Absent => {
            let from = 4096 * place as usize;
            changing.fill(&bytes[from..from + 4096]);
        }
        _ => changing.keep(),
    }
}
