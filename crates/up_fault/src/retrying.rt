//! Retries of accesses that waited.
ghost use Rattle.std.specs.Prelude.{◌≡◌, ◌+◌, ◌≤◌, List, ℕ, length, true, false, IsTrue, is_some};
ghost use Rattle.up_bank.specs.declared.kind.FrameKind.TheVariants.{Ordinary as OrdinaryKind};
ghost use Rattle.up_num.specs.declared.answers.Outcome.TheVariants.{Freed as FreedOutcome};
ghost use Rattle.up_model.specs.declared.entry.Reply.TheVariants.{Refused as RefusedReply, Needs as NeedsReply, Waiting as WaitingReply};
ghost use Rattle.up_model.specs.Attempts.{parked, page_of};
ghost use Rattle.up_model.specs.Reply as replies;
ghost use Rattle.up_model.specs.Tickets as tickets;
ghost use Rattle.up_object.specs.Parts.{bank_of};
ghost use Rattle.up_object.specs.Change.{AllAre};
ghost use Rattle.up_object.specs.OneCall.{DoesCall};
ghost use Rattle.up_fault.specs.Accesses.{access_in, Parking, Doing};
ghost use Rattle.up_fault.specs.Calls.{retry_call, OfParked, IsHeld, IsAttempt};

use crate::access::{Attempt, Decision, page_in, place_in};
use crate::deciding::decide;
use crate::wanting::{park, want};
use std::alloc::Global;
use up_bank::FrameKind;
use up_model::{Brought, Call, Entry, Reply};
use up_num::{AskKind, Memory, Outcome, Piece, Refusal};
use up_object::changing::{open, open_asking};
use up_object::{By, Declined, Object, Step, Stepped, note_with};
use up_pages::Frames;

/// A retry, as it was called.
#[derive(Clone, Copy)]
pub(crate) struct Retrying {
    pub(crate) alloc: Global,
    pub(crate) by: By,
    pub(crate) ticket: u64,
    pub(crate) brought: Brought,
}

impl Retrying {
    fn entry(&self, reply: Reply) -> Entry
        ensures { result ≡ record { who = self.now.by.who; epoch = self.now.by.epoch; call = retry_call self.now; reply = reply } }
    {
        let call = Call::Retry {
            ticket: self.ticket,
            brought: self.brought,
        };
        self.by.entry(call, reply)
    }
}

/// What waits under a ticket.
fn attempt_under(object: &Object, ticket: u64) -> Attempt
    requires held { IsHeld object.now.journal ticket }
    ensures some { is_some (parked object.now.journal ticket) ≡ true }
    ensures same { OfParked object.now.journal ticket (IsAttempt result) }
    ensures within { replies.within_page result.off result.len ≡ true }
    ensures order { page_of result.off ≤ result.last.0 }
{
    object.is_legal();
    let waiter = object.waiter(ticket);
    Attempt {
        off: waiter.off,
        len: waiter.len,
        last: waiter.last,
        write: waiter.write,
    }
}

/// Goes on with what waits under a ticket.
pub(crate) fn try_again(object: Object, given: (Retrying, Frames)) -> (Object, Step)
    requires proper { IsTrue (replies.proper object.birth object.journal given.0.by.who (retry_call given.0)) }
    requires own { AllAre (bank_of object.banks OrdinaryKind) given.1.items }
    requires frames { replies.frames_in given.0.brought ≤ length given.1.items }
    ensures { DoesCall object result.0 result.1 given.0.by.who given.0.by.epoch (retry_call given.0) given.1.items }
{
    let (retrying, frames) = given;
    match object.outcome(retrying.ticket) {
        Outcome::Waiting => wait(object, retrying, frames),
        Outcome::Freed => access_again(object, retrying, frames),
        Outcome::Failed(code) => give_up(object, retrying, Refusal::Pager(code), frames),
        Outcome::Detached => give_up(object, retrying, Refusal::Detached, frames),
        Outcome::Shrunk => give_up(object, retrying, Refusal::Range, frames),
    }
}

/// Nothing has become of the ticket, which stays.
fn wait(object: Object, retrying: Retrying, frames: Frames) -> (Object, Step)
    requires proper { IsTrue (replies.proper object.birth object.journal retrying.by.who (retry_call retrying)) }
    requires own { AllAre (bank_of object.banks OrdinaryKind) frames.items }
    requires due { replies.reply object.birth object.journal retrying.by.who retrying.by.epoch (retry_call retrying) ≡ WaitingReply }
    ensures { DoesCall object result.0 result.1 retrying.by.who retrying.by.epoch (retry_call retrying) frames.items }
{
    let entry = retrying.entry(Reply::Waiting);
    note_with(
        object,
        retrying.alloc,
        entry,
        Reply::Waiting,
        FrameKind::Ordinary,
        frames,
    )
}

/// Asks for frames. The ticket stays.
fn need_again(object: Object, retrying: Retrying, count: u32, frames: Frames) -> (Object, Step)
    requires proper { IsTrue (replies.proper object.birth object.journal retrying.by.who (retry_call retrying)) }
    requires own { AllAre (bank_of object.banks OrdinaryKind) frames.items }
    requires due { replies.reply object.birth object.journal retrying.by.who retrying.by.epoch (retry_call retrying) ≡ NeedsReply count }
    ensures { DoesCall object result.0 result.1 retrying.by.who retrying.by.epoch (retry_call retrying) frames.items }
{
    let entry = retrying.entry(Reply::Needs(count));
    note_with(
        object,
        retrying.alloc,
        entry,
        Reply::Needs(count),
        FrameKind::Ordinary,
        frames,
    )
}

/// Refuses the access, which spends its ticket.
fn give_up(object: Object, retrying: Retrying, why: Refusal, frames: Frames) -> (Object, Step)
    requires proper { IsTrue (replies.proper object.birth object.journal retrying.by.who (retry_call retrying)) }
    requires own { AllAre (bank_of object.banks OrdinaryKind) frames.items }
    requires due { replies.reply object.birth object.journal retrying.by.who retrying.by.epoch (retry_call retrying) ≡ RefusedReply why }
    ensures { DoesCall object result.0 result.1 retrying.by.who retrying.by.epoch (retry_call retrying) frames.items }
{
    object.is_legal();
    let entry = retrying.entry(Reply::Refused(why));
    match open(
        object,
        retrying.alloc,
        entry,
        FrameKind::Ordinary,
        frames,
        0,
        0,
    ) {
        Ok(mut changing) => {
            let _ = changing.spend(retrying.ticket);
            let (object, back) = changing.close(0, 0);
            let reply = Reply::Refused(why);
            (object, Ok(Stepped { reply, back }))
        }
        Err((memory, object, frames)) => (object, Err((memory, frames))),
    }
}

/// Makes the access of a freed ticket anew.
fn access_again(object: Object, retrying: Retrying, frames: Frames) -> (Object, Step)
    requires proper { IsTrue (replies.proper object.birth object.journal retrying.by.who (retry_call retrying)) }
    requires own { AllAre (bank_of object.banks OrdinaryKind) frames.items }
    requires frames { replies.frames_in retrying.brought ≤ length frames.items }
    requires freed { tickets.outcome object.birth object.journal retrying.ticket ≡ FreedOutcome }
    ensures { DoesCall object result.0 result.1 retrying.by.who retrying.by.epoch (retry_call retrying) frames.items }
{
    let attempt = attempt_under(&object, retrying.ticket);
    match decide(&object, &attempt, retrying.brought) {
        Decision::Decline(Declined::Refused(why)) => give_up(object, retrying, why, frames),
        Decision::Decline(Declined::Needs(count)) => need_again(object, retrying, count, frames),
        Decision::Park(kind) => wait_again(object, retrying, attempt, kind, frames),
        Decision::Done => do_again(object, retrying, attempt, frames),
    }
}

/// Parks the access anew, under the next ticket.
fn wait_again(
    object: Object,
    retrying: Retrying,
    attempt: Attempt,
    kind: AskKind,
    frames: Frames,
) -> (Object, Step)
    requires proper { IsTrue (replies.proper object.birth object.journal retrying.by.who (retry_call retrying)) }
    requires own { AllAre (bank_of object.banks OrdinaryKind) frames.items }
    requires freed { tickets.outcome object.birth object.journal retrying.ticket ≡ FreedOutcome }
    requires some { is_some (parked object.journal retrying.ticket) ≡ true }
    requires same { OfParked object.journal retrying.ticket (IsAttempt attempt) }
    requires order { page_of attempt.off ≤ attempt.last.0 }
    requires waits { (bytes : List ℕ) → Parking object.birth object.journal (access_in attempt bytes) retrying.brought kind }
    ensures { DoesCall object result.0 result.1 retrying.by.who retrying.by.epoch (retry_call retrying) frames.items }
{
    object.is_legal();
    let Ok(wanted) = want(&object, retrying.alloc, &attempt, kind) else {
        return (object, Err((Memory {}, frames)));
    };
    let number = object.next_ticket();
    let entry = retrying.entry(Reply::Blocked(number));
    let packets = wanted.packets();
    match open_asking(
        object,
        retrying.alloc,
        entry,
        FrameKind::Ordinary,
        frames,
        0,
        0,
        packets,
        1,
    ) {
        Ok(mut changing) => {
            let piece = changing.spend(retrying.ticket);
            let (object, back) = park(changing, retrying.by.who, wanted, piece);
            let reply = Reply::Blocked(number);
            (object, Ok(Stepped { reply, back }))
        }
        Err((memory, object, frames)) => (object, Err((memory, frames))),
    }
}

fn do_again(object: Object, retrying: Retrying, attempt: Attempt, frames: Frames) -> (Object, Step)
    requires proper { IsTrue (replies.proper object.birth object.journal retrying.by.who (retry_call retrying)) }
    requires own { AllAre (bank_of object.banks OrdinaryKind) frames.items }
    requires frames { replies.frames_in retrying.brought ≤ length frames.items }
    requires freed { tickets.outcome object.birth object.journal retrying.ticket ≡ FreedOutcome }
    requires some { is_some (parked object.journal retrying.ticket) ≡ true }
    requires same { OfParked object.journal retrying.ticket (IsAttempt attempt) }
    requires within { replies.within_page attempt.off attempt.len ≡ true }
    requires done { (bytes : List ℕ) → Doing object.birth object.journal (access_in attempt bytes) retrying.brought }
    ensures { DoesCall object result.0 result.1 retrying.by.who retrying.by.epoch (retry_call retrying) frames.items }
{
    if attempt.write {
        write_again(object, retrying, attempt, frames)
    } else {
        read_again(object, retrying, attempt, frames)
    }
}

/// Reads the bytes of a page that is there, which spends the ticket.
fn read_again(
    object: Object,
    retrying: Retrying,
    attempt: Attempt,
    frames: Frames,
) -> (Object, Step)
    requires proper { IsTrue (replies.proper object.birth object.journal retrying.by.who (retry_call retrying)) }
    requires own { AllAre (bank_of object.banks OrdinaryKind) frames.items }
    requires freed { tickets.outcome object.birth object.journal retrying.ticket ≡ FreedOutcome }
    requires some { is_some (parked object.journal retrying.ticket) ≡ true }
    requires same { OfParked object.journal retrying.ticket (IsAttempt attempt) }
    requires within { replies.within_page attempt.off attempt.len ≡ true }
    requires done { (bytes : List ℕ) → Doing object.birth object.journal (access_in attempt bytes) retrying.brought }
    requires reads { attempt.write ≡ false }
    ensures { DoesCall object result.0 result.1 retrying.by.who retrying.by.epoch (retry_call retrying) frames.items }
{
    object.is_legal();
    let piece = Piece {
        off: attempt.off,
        len: attempt.len,
    };
    let Ok(answer) = object.bytes(retrying.alloc, &piece) else {
        return (object, Err((Memory {}, frames)));
    };
    let Ok(noted) = object.bytes(retrying.alloc, &piece) else {
        return (object, Err((Memory {}, frames)));
    };
    let entry = retrying.entry(Reply::Bytes(noted));
    let page = page_in(&object, attempt.off);
    match open(
        object,
        retrying.alloc,
        entry,
        FrameKind::Ordinary,
        frames,
        page,
        page + 1,
    ) {
        Ok(mut changing) => {
            let _ = changing.spend(retrying.ticket);
            changing.use_page();
            let (object, back) = changing.close(page, page + 1);
            let reply = Reply::Bytes(answer);
            (object, Ok(Stepped { reply, back }))
        }
        Err((memory, object, frames)) => (object, Err((memory, frames))),
    }
}

/// Writes the bytes that wait into a page that is there, which spends the ticket.
fn write_again(
    object: Object,
    retrying: Retrying,
    attempt: Attempt,
    frames: Frames,
) -> (Object, Step)
    requires proper { IsTrue (replies.proper object.birth object.journal retrying.by.who (retry_call retrying)) }
    requires own { AllAre (bank_of object.banks OrdinaryKind) frames.items }
    requires frames { replies.frames_in retrying.brought ≤ length frames.items }
    requires freed { tickets.outcome object.birth object.journal retrying.ticket ≡ FreedOutcome }
    requires some { is_some (parked object.journal retrying.ticket) ≡ true }
    requires same { OfParked object.journal retrying.ticket (IsAttempt attempt) }
    requires within { replies.within_page attempt.off attempt.len ≡ true }
    requires done { (bytes : List ℕ) → Doing object.birth object.journal (access_in attempt bytes) retrying.brought }
    requires writes { attempt.write ≡ true }
    ensures { DoesCall object result.0 result.1 retrying.by.who retrying.by.epoch (retry_call retrying) frames.items }
{
    object.is_legal();
    let entry = retrying.entry(Reply::Done);
    let page = page_in(&object, attempt.off);
    match open(
        object,
        retrying.alloc,
        entry,
        FrameKind::Ordinary,
        frames,
        page,
        page + 1,
    ) {
        Ok(mut changing) => {
            let piece = changing.spend(retrying.ticket);
            changing.write(place_in(attempt.off), piece.bytes.as_slice());
            changing.set_changed(true);
            let (object, back) = changing.close(page, page + 1);
            let reply = Reply::Done;
            (object, Ok(Stepped { reply, back }))
        }
        Err((memory, object, frames)) => (object, Err((memory, frames))),
    }
}
