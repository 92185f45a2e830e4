ghost use Rattle.std.specs.Prelude.{◌≡◌, ℕ, ◌≤◌, ◌==◌, ◌&&◌, ◌||◌, not, true, false, length, IsNone, IsTrue};
ghost use Rattle.up_model.specs.Changes.{IsDue};
ghost use Rattle.up_model.specs.Concerns.{concerns, keeps_asks, keeps_roles, keeps_modified, keeps_size, is_retry, keeps_spent};
ghost use Rattle.up_model.specs.Tickets.{keeps_ticket};
ghost use Rattle.up_model.specs.Modified.{is_reset};
ghost use Rattle.up_model.specs.Reply.{counts_frames, frames_in, with_frames, proper, reply};
ghost use Rattle.up_model.specs.declared.entry.Reply.{Reply as ReplyValue};
ghost use Rattle.up_object.specs.Parts.{bank_of};
ghost use Rattle.up_object.specs.Change.{AllAre};
ghost use Rattle.up_object.specs.OneCall.{DoesCall, brought_of, frames_of, brought_count, or_declined, declined_reply};

use crate::changing::note;
use crate::object::Object;
use std::alloc::Global;
use up_bank::{FrameKind, Scan};
use up_model::{Brought, Call, Entry, Reply};
use up_num::{Memory, Refusal};
use up_pages::Frames;

/// Who calls, and the generation that the clock showed.
#[derive(Clone, Copy)]
pub struct By {
    pub who: u32,
    pub epoch: u64,
}

/// The frames that a call is handed. It may hold frames, so it has to be spent.
pub enum FramesIn {
    NoneYet,
    Given(Frames),
    /// A claim found no frame.
    Scanned(Scan),
}

/// What a call answered, and the frames that come back.
pub struct Stepped {
    pub reply: Reply,
    pub back: Frames,
}

/// A call's answer. After want of memory all frames that it was handed come back.
pub type Step = Result<Stepped, (Memory, Frames)>;

/// Why a call does nothing: it is refused, or needs frames.
#[derive(Clone, Copy)]
pub enum Declined {
    Refused(Refusal),
    Needs(u32),
}

impl By {
    /// The entry of a call with its reply.
    pub fn entry(self, call: Call, reply: Reply) -> Entry
        ensures { result ≡ record { who = self.who; epoch = self.epoch; call = call; reply = reply } }
    {
        Entry {
            who: self.who,
            epoch: self.epoch,
            call,
            reply,
        }
    }
}

impl FramesIn {
    /// What a call's entry says of them.
    pub fn brought(&self) -> Brought
        ensures value { result ≡ brought_of self.now }
        ensures some { counts_frames result ≡ true }
    {
        match self {
            FramesIn::NoneYet => Brought::Nothing,
            FramesIn::Given(frames) => brought_some(frames.len()),
            FramesIn::Scanned(_) => Brought::Scanned,
        }
    }

    /// Tells the prover that frames that a call's entry says were brought are at least one.
    pub fn is_counted(&self)
        ensures { counts_frames (brought_of self.now) ≡ true }
    {
        self.brought();
    }

    /// All of them, as a list.
    pub fn into_frames(self, alloc: Global) -> Frames
        ensures items { result.items ≡ frames_of self }
        ensures count { length result.items ≡ frames_in (brought_of self) }
    {
        match self {
            FramesIn::NoneYet => Frames::new(alloc),
            FramesIn::Given(frames) => frames,
            FramesIn::Scanned(_) => Frames::new(alloc),
        }
    }
}

/// So many frames.
fn brought_some(count: u32) -> Brought
    ensures { result ≡ brought_count count }
{
    if count == 0 {
        Brought::Nothing
    } else {
        Brought::Frames(count)
    }
}

/// What keeps a call that needs so many frames from being done.
pub fn lacking(count: u32, brought: Brought) -> Option<Declined>
    ensures reply { (next : ReplyValue) → with_frames count brought next ≡ or_declined result next }
    ensures enough { IsNone result → count ≤ frames_in brought }
{
    if count == 0 {
        return None;
    }
    let given = match brought {
        Brought::Nothing => 0,
        Brought::Frames(given) => given,
        Brought::Scanned => return Some(Declined::Refused(Refusal::NoFrames)),
    };
    if given < count {
        return Some(Declined::Needs(count));
    }
    None
}

impl Declined {
    /// The reply that tells it.
    pub fn reply(self) -> Reply
        ensures { result ≡ declined_reply self }
    {
        match self {
            Declined::Refused(why) => Reply::Refused(why),
            Declined::Needs(count) => Reply::Needs(count),
        }
    }
}

/// Makes a call that changes no part, with the reply that its entry has.
pub fn note_with(
    object: Object,
    alloc: Global,
    entry: Entry,
    reply: Reply,
    brings: FrameKind,
    given: Frames,
) -> (Object, Step)
    requires own { AllAre (bank_of object.banks brings) given.items }
    requires pages { (p : ℕ) → concerns object.birth object.journal entry p ≡ false }
    requires asks { keeps_asks entry ≡ true }
    requires spent { keeps_spent entry ≡ true }
    requires tally { (keeps_roles entry && keeps_modified entry) ≡ true }
    requires size { keeps_size entry ≡ true }
    requires due { IsDue object.birth entry object.journal }
    requires same { reply ≡ entry.reply }
    ensures { DoesCall object result.0 result.1 entry.who entry.epoch entry.call given.items }
{
    match note(object, alloc, entry, brings, given) {
        Ok((object, back)) => (object, Ok(Stepped { reply, back })),
        Err((memory, object, given)) => (object, Err((memory, given))),
    }
}

/// Makes a call that does nothing.
pub fn decline(
    object: Object,
    alloc: Global,
    by: By,
    call: Call,
    why: Declined,
    brings: FrameKind,
    given: Frames,
) -> (Object, Step)
    requires own { AllAre (bank_of object.banks brings) given.items }
    requires properly { IsTrue (proper object.birth object.journal by.who call) }
    requires due { reply object.birth object.journal by.who by.epoch call ≡ declined_reply why }
    requires keeps { is_reset call ≡ false }
    requires spent { (not (is_retry call) || keeps_ticket (declined_reply why)) ≡ true }
    ensures { DoesCall object result.0 result.1 by.who by.epoch call given.items }
{
    let entry = by.entry(call, why.reply());
    note_with(object, alloc, entry, why.reply(), brings, given)
}
