//! A journal's calls done anew on an object, as lists of requests.
ghost use Rattle.std.specs.Prelude.{◌≡◌, ◌<◌, ◌≤◌, ◌&&◌, List, [], IsTrue, IfOk, length};
ghost use Rattle.up_bank.specs.Standing.{most_frames};
ghost use Rattle.up_model.specs.Reply as replies;
ghost use Rattle.up_model.specs.declared.entry.Entry.{Entry as EntryValue};
ghost use Rattle.up_core.specs.Requests.{AllKeep, AllBackOwn, after_all};
ghost use Rattle.up_object.specs.Change.{AllOwn};
ghost use Rattle.up_object.specs.OneCall.{frames_of};
ghost use Rattle.judge_journals.specs.Homes.{AllHome};

use std::alloc::Global;
use up_bank::FrameKind;
use up_check::{ReplayBanks, Sizes, is_fair, kind_of, may_call};
use up_core::{Owed, Replies, Request, Requests, run_list};
use up_journal::is_proper;
use up_model::{Birth, Brought, Call, Entry};
use up_num::Memory;
use up_object::{Object, Stepped};
use up_text::Named;

/// The most frames that a bank has.
const MOST: u32 = 131_072;

/// How many of a journal's replies a new object gives again, where its calls are made as lists of requests, each up to the next retry.
pub(crate) fn count_again(alloc: Global, journal: &Named) -> Result<usize, Memory> {
    if !is_fair(&journal.birth) {
        return Ok(0);
    }
    let entries = journal.entries.as_slice();
    let sizes = Sizes {
        ordinary: frames_for(entries, FrameKind::Ordinary),
        loaned: frames_for(entries, FrameKind::Loaned),
    };
    let mut banks = ReplayBanks::new(alloc, sizes)?;
    let told = count_over(alloc, &mut banks, journal.birth, entries);
    banks.end();
    told
}

/// The same, with frames of these banks.
fn count_over(
    alloc: Global,
    banks: &mut ReplayBanks,
    birth: Birth,
    entries: &[Entry],
) -> Result<usize, Memory>
    requires users { (0 < birth.users) × (birth.users ≤ 64) }
    requires pagers { (0 < birth.pagers) × (birth.pagers ≤ 64) }
{
    let mut object = banks.birth(alloc, birth)?;
    let told = run_entries(alloc, &mut object, banks, entries);
    let (_, held) = object.end();
    banks.bring_home(held);
    told
}

/// As many frames of a kind as the entries brought, at least one and no more than a bank has.
fn frames_for(entries: &[Entry], kind: FrameKind) -> u32
    ensures { (0 < result) × (result ≤ most_frames) }
{
    let mut frames = 0u32;
    for entry in entries {
        if kind_of(&entry.call) == kind
            && let Brought::Frames(count) = entry.call.brought()
        {
            frames = frames.saturating_add(count);
        }
    }
    within(frames)
}

/// So many frames, but at least one, and no more than a bank has.
fn within(frames: u32) -> u32
    ensures { (0 < result) × (result ≤ most_frames) }
{
    if MOST < frames {
        MOST
    } else if frames == 0 {
        1
    } else {
        frames
    }
}

/// Makes the calls of entries on an object, and counts the replies that are the same.
fn run_entries(
    alloc: Global,
    object: &mut Object,
    banks: &mut ReplayBanks,
    entries: &[Entry],
) -> Result<usize, Memory>
    requires { object.old.banks ≡ banks.old }
    ensures { (object.new.banks ≡ banks.new) × (banks.new ≡ banks.old) }
{
    let mut same = 0usize;
    let mut first = 0;
    while first < entries.len() {
        let end = list_end(entries, first);
        let found = run_some(alloc, object, banks, &entries[first..end])?;
        same = same.saturating_add(found);
        first = end;
    }
    Ok(same)
}

/// The place of the next retry behind this place, or the end.
fn list_end(entries: &[Entry], first: usize) -> usize
    requires { first < length entries.now }
    ensures { (first < result) × (result ≤ length entries.now) }
{
    for place in first + 1..entries.len() {
        if is_retry(&entries[place].call) {
            return place;
        }
    }
    entries.len()
}

fn is_retry(call: &Call) -> bool {
    matches!(call, Call::Retry { .. })
}

/// Makes the calls of some entries as one list of requests, and counts the replies that are the same.
#[tactic(auto, using(crate::proofs::Requests::home_left, up_core::proofs::Listed::banks_stay))]
fn run_some(
    alloc: Global,
    object: &mut Object,
    banks: &mut ReplayBanks,
    entries: &[Entry],
) -> Result<usize, Memory>
    requires { object.old.banks ≡ banks.old }
    ensures { (object.new.banks ≡ banks.new) × (banks.new ≡ banks.old) }
{
    let list = list_of(alloc, object, banks, entries)?;
    match run_list(object, alloc, list) {
        Ok(replies) => Ok(count_same(banks, replies, entries)),
        Err((memory, left, back)) => {
            banks.bring_home(back);
            bring_all_home(alloc, banks, left);
            Err(memory)
        }
    }
}

/// The entries' calls as a list of requests, up to the first call that may not be made or for which frames are lacking.
fn list_of(
    alloc: Global,
    object: &Object,
    banks: &mut ReplayBanks,
    entries: &[Entry],
) -> Result<Requests, Memory>
    requires { object.now.banks ≡ banks.old }
    ensures same { banks.new ≡ banks.old }
    ensures keeps { IfOk result (AllKeep object.now) }
    ensures home { IfOk result (AllHome banks.old) }
{
    let mut list = Owed::new(alloc);
    for entry in entries {
        match add(alloc, object, banks, entry, &mut list) {
            Ok(true) => {}
            Ok(false) => return Ok(list),
            Err(memory) => {
                bring_all_home(alloc, banks, list);
                return Err(memory);
            }
        }
    }
    Ok(list)
}

/// Appends an entry's call to a list; false where it may not be made or frames are lacking.
#[tactic(auto, using(crate::proofs::Requests::home_pushed))]
fn add(
    alloc: Global,
    object: &Object,
    banks: &mut ReplayBanks,
    entry: &Entry,
    list: &mut Requests,
) -> Result<bool, Memory>
    requires banks { object.now.banks ≡ banks.old }
    requires keeps { AllKeep object.now list.old }
    requires home { AllHome banks.old list.old }
    ensures same { banks.new ≡ banks.old }
    ensures keeps { AllKeep object.now list.new }
    ensures home { AllHome banks.old list.new }
{
    let brought = entry.call.brought();
    if !fits(object, list, entry.who, &entry.call) || !counts(brought) {
        return Ok(false);
    }
    let call = entry.call.copy_bringing(alloc, brought)?;
    let Some(frames) = banks.hand(alloc, kind_of(&call), brought)? else {
        return Ok(false);
    };
    let request = Request {
        who: entry.who,
        epoch: entry.epoch,
        call,
        frames,
    };
    match list.push(request) {
        Ok(()) => Ok(true),
        Err((memory, request)) => {
            bring_one_home(alloc, banks, request);
            Err(memory)
        }
    }
}

/// Whether a call is proper after a list of requests.
fn fits(object: &Object, list: &Requests, who: u32, call: &Call) -> bool
    ensures { IsTrue result → IsTrue (replies.proper object.now.birth (after_all object.now list.now).journal who call.now) }
{
    if list.is_empty() {
        may_call(object, who, call)
    } else {
        may_always_be_made(object.born(), who, call)
    }
}

/// Whether a call is proper after any entries.
fn may_always_be_made(birth: Birth, who: u32, call: &Call) -> bool
    ensures { IsTrue result → (h : List EntryValue) → IsTrue (replies.proper birth h who call.now) }
{
    match call {
        Call::Retry { .. } => false,
        _ => is_proper(&birth, &[], who, call),
    }
}

/// Frames that are said to be brought are at least one.
fn counts(brought: Brought) -> bool
    ensures { result ≡ replies.counts_frames brought }
{
    match brought {
        Brought::Frames(count) => count > 0,
        Brought::Nothing | Brought::Scanned => true,
    }
}

/// Counts the replies that are those of the entries. The frames that came with them go home.
#[tactic(auto, using(crate::proofs::Requests::back_own, crate::proofs::Requests::back_rest))]
fn count_same(banks: &mut ReplayBanks, replies: Replies, entries: &[Entry]) -> usize
    requires { AllBackOwn banks.old replies }
    ensures { banks.new ≡ banks.old }
{
    let mut same = 0usize;
    let mut rest = replies.into_vec();
    while let Some(stepped) = rest.pop() {
        let Stepped { reply, back } = stepped;
        banks.bring_home(back);
        if let Some(entry) = entries.get(rest.len())
            && entry.reply.same(&reply)
        {
            same = same.saturating_add(1);
        }
    }
    rest.destroy_empty();
    same
}

/// Brings the frames of requests home.
#[tactic(auto, using(crate::proofs::Requests::home_own, crate::proofs::Requests::home_rest))]
fn bring_all_home(alloc: Global, banks: &mut ReplayBanks, requests: Requests)
    requires { AllHome banks.old requests }
    ensures { banks.new ≡ banks.old }
{
    let mut rest = requests.into_vec();
    while let Some(request) = rest.pop() {
        bring_one_home(alloc, banks, request);
    }
    rest.destroy_empty();
}

fn bring_one_home(alloc: Global, banks: &mut ReplayBanks, request: Request)
    requires { AllOwn banks.old (frames_of request.frames) }
    ensures { banks.new ≡ banks.old }
{
    let Request {
        who: _,
        epoch: _,
        call: _,
        frames,
    } = request;
    banks.bring_home(frames.into_frames(alloc));
}
