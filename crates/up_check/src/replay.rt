//! Judges a journal by replay: its calls are made on an object, one after the other, and the replies are compared.
ghost use Rattle.std.specs.Prelude.{◌≡◌, ◌<◌, ◌≤◌, ◌&&◌, not, List, [], IsTrue, IfOk, OnOk, OnErr};
ghost use Rattle.up_model.specs.Reply as replies;
ghost use Rattle.up_model.specs.Parked as parking;
ghost use Rattle.up_model.specs.Tickets as tickets;
ghost use Rattle.up_model.specs.declared.entry.Entry.{Entry as EntryValue};
ghost use Rattle.up_object.specs.Parts.{bank_of};
ghost use Rattle.up_object.specs.Change.{AllAre, AllOwn};
ghost use Rattle.up_object.specs.OneCall.{frames_of};
ghost use Rattle.up_object.specs.Whole.{after};
ghost use Rattle.up_core.specs.Enough.{SameButFrames};
ghost use Rattle.up_core.specs.Requests.{kind_taken, Agrees};
ghost use Rattle.up_check.specs.Replaying.{FindsByReplay, Replays};

use crate::banks::ReplayBanks;
use crate::bringing::brought_again;
use crate::judging::{Fault, Judged};
use crate::sizes::{is_fair, sizes_for};
use std::alloc::Global;
use up_bank::FrameKind;
use up_core::step;
use up_journal::is_proper;
use up_model::{Brought, Call, Entry, Reply};
use up_num::Memory;
use up_object::{FramesIn, Object, Stepped};
use up_text::Named;

/// What the replay of a journal finds: its first entry at fault, if it has one.
#[derive(Debug, Drop)]
pub(crate) enum Replayed {
    Found(Option<Fault>),
    /// No object has as many actors, or no bank as many frames, so not all calls were made.
    TooLarge,
}

/// How an entry stands whose call is made again.
#[derive(Debug, Drop)]
pub(crate) enum MadeAgain {
    Judged(Judged),
    /// No bank has as many frames, so the call wasn't made.
    TooLarge,
}

/// Finds the first entry at fault in a journal.
pub(crate) fn replay(alloc: Global, journal: &Named) -> Result<Replayed, Memory>
    ensures { IfOk result (FindsByReplay journal.now.birth journal.now.entries) }
{
    if !is_fair(&journal.birth) {
        return Ok(Replayed::TooLarge);
    }
    let Some(sizes) = sizes_for(journal) else {
        return Ok(Replayed::TooLarge);
    };
    let mut banks = ReplayBanks::new(alloc, sizes)?;
    let found = replay_over(alloc, &mut banks, journal);
    banks.end();
    found
}

/// Finds the first entry at fault in a journal, with frames of these banks.
fn replay_over(alloc: Global, banks: &mut ReplayBanks, journal: &Named) -> Result<Replayed, Memory>
    requires users { (0 < journal.now.birth.users) × (journal.now.birth.users ≤ 64) }
    requires pagers { (0 < journal.now.birth.pagers) × (journal.now.birth.pagers ≤ 64) }
    ensures { IfOk result (FindsByReplay journal.now.birth journal.now.entries) }
{
    let mut object = banks.birth(alloc, journal.birth)?;
    let found = replay_all(alloc, &mut object, banks, journal.entries.as_slice());
    let (_, held) = object.end();
    banks.bring_home(held);
    found
}

/// Makes the calls of entries, the oldest first, on a new object.
fn replay_all(
    alloc: Global,
    object: &mut Object,
    banks: &mut ReplayBanks,
    entries: &[Entry],
) -> Result<Replayed, Memory>
    requires fresh { object.old.journal ≡ [] }
    requires banks { object.old.banks ≡ banks.old }
    ensures told { IfOk result (FindsByReplay object.old.birth entries.now) }
    ensures same { (object.new.banks ≡ banks.new) × (banks.new ≡ banks.old) }
{
    for place in 0..entries.len() {
        match replay_one(alloc, object, banks, &entries[place])? {
            MadeAgain::TooLarge => return Ok(Replayed::TooLarge),
            MadeAgain::Judged(Judged::Right) => {}
            MadeAgain::Judged(Judged::Fault(expected)) => {
                return Ok(Replayed::Found(Some(Fault {
                    entry: place as u64,
                    expected,
                })));
            }
        }
    }
    Ok(Replayed::Found(None))
}

/// Makes the call of an entry, and compares the reply.
#[tactic(auto, using(crate::proofs::CallsHanded::counts_in, crate::proofs::CallsHanded::hands_in, crate::proofs::ReplayFinds::improper_told, crate::proofs::ReplayFinds::right_told, crate::proofs::ReplayFinds::wrong_told))]
fn replay_one(
    alloc: Global,
    object: &mut Object,
    banks: &mut ReplayBanks,
    entry: &Entry,
) -> Result<MadeAgain, Memory>
    requires banks { object.old.banks ≡ banks.old }
    ensures told { (h : List EntryValue) → SameButFrames object.old.journal h → IfOk result (Replays object.old.birth h entry.now object.new.journal) }
    ensures same { (object.new.birth ≡ object.old.birth) × (object.new.banks ≡ banks.new) × (banks.new ≡ banks.old) }
{
    if !may_call(object, entry.who, &entry.call) {
        return Ok(MadeAgain::Judged(Judged::Fault(None)));
    }
    let brought = brought_again(object, &entry.call);
    let call = entry.call.copy_bringing(alloc, brought)?;
    let Some(frames) = banks.hand(alloc, kind_of(&call), brought)? else {
        return Ok(MadeAgain::TooLarge);
    };
    let reply = make(alloc, object, banks, entry, call, frames)?;
    if entry.reply.same(&reply) {
        Ok(MadeAgain::Judged(Judged::Right))
    } else {
        Ok(MadeAgain::Judged(Judged::Fault(Some(reply))))
    }
}

/// Whether an actor may make the call now: whether it is proper.
#[tactic(auto, using(crate::proofs::TicketHolders::retry_told, crate::proofs::TicketHolders::other_told))]
pub fn may_call(object: &Object, who: u32, call: &Call) -> bool
    ensures { result ≡ replies.proper object.now.birth object.now.journal who call.now }
{
    match retried(call) {
        Some(ticket) => may_retry(holds(object, who, ticket), call.brought()),
        None => is_proper(&object.born(), &[], who, call),
    }
}

/// The ticket that a call retries.
fn retried(call: &Call) -> Option<u64>
    ensures { result ≡ parking.retried call.now }
{
    match call {
        Call::Retry { ticket, .. } => Some(*ticket),
        _ => None,
    }
}

/// Whether a retry is proper, by whether its actor holds the ticket and by what it brought.
fn may_retry(holds: bool, brought: Brought) -> bool
    ensures { result ≡ (holds && replies.counts_frames brought) }
{
    holds && counts(brought)
}

/// Frames that are said to be brought are at least one.
fn counts(brought: Brought) -> bool
    ensures { result ≡ replies.counts_frames brought }
{
    match brought {
        Brought::Frames(count) => 0 < count,
        _ => true,
    }
}

/// Whether the ticket was given to this actor, and isn't spent.
#[tactic(auto, using(crate::proofs::TicketHolders::holds_some, crate::proofs::TicketHolders::holds_none))]
fn holds(object: &Object, who: u32, ticket: u64) -> bool
    ensures { result ≡ (replies.is_by (tickets.owner object.now.journal ticket) who && not (tickets.spent object.now.journal ticket)) }
{
    object.is_legal();
    match object.asks().holder(ticket) {
        Some(holder) => holder == who,
        None => false,
    }
}

/// Which frames a call takes.
pub fn kind_of(call: &Call) -> FrameKind
    ensures { result ≡ kind_taken call.now }
{
    match call {
        Call::Borrow { .. } => FrameKind::Loaned,
        _ => FrameKind::Ordinary,
    }
}

/// Makes a call for an entry's actor. What comes back goes home.
fn make(
    alloc: Global,
    object: &mut Object,
    banks: &mut ReplayBanks,
    entry: &Entry,
    call: Call,
    frames: FramesIn,
) -> Result<Reply, Memory>
    requires banks { object.old.banks ≡ banks.old }
    requires own { AllAre (bank_of banks.old (kind_taken call)) (frames_of frames) }
    requires back { AllOwn banks.old (frames_of frames) }
    requires agrees { Agrees call frames }
    requires proper { IsTrue (replies.proper object.old.birth object.old.journal entry.now.who call) }
    ensures reply { IfOk result (λ reply. reply ≡ replies.reply object.old.birth object.old.journal entry.now.who entry.now.epoch call) }
    ensures object { OnOk result (object.new ≡ after object.old entry.now.who entry.now.epoch call) }
    ensures err { OnErr result (object.new ≡ object.old) }
    ensures banks { banks.new ≡ banks.old }
{
    match step(object, alloc, entry.who, entry.epoch, call, frames) {
        Ok(Stepped { reply, back }) => {
            banks.bring_home(back);
            Ok(reply)
        }
        Err((memory, back)) => {
            banks.bring_home(back);
            Err(memory)
        }
    }
}
