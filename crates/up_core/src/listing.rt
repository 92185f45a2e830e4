ghost use Rattle.std.specs.Prelude.{◌≡◌, ◌+◌, ◌<◌, ◌≤◌, ◌++◌, [], length, reverse, vec_capacity, IfSome, IfOk, IfErr, OnOk};
ghost use Rattle.up_bank.specs.declared.kind.FrameKind.{FrameKind as FrameKindValue};
ghost use Rattle.up_pages.specs.Frames.{count_kind};
ghost use Rattle.up_model.specs.Size.{size};
ghost use Rattle.up_object.specs.Change.{AllOwn};
ghost use Rattle.up_object.specs.Whole.{Whole, held};
ghost use Rattle.up_object.specs.OneCall.{frames_of};
ghost use Rattle.up_core.specs.Requests.{AllKeep, AllBackOwn, EachBalances, after_all, replies_to, replies_in, handed, given_back, tried, done};
ghost use Rattle.up_core.specs.Running.{Ran, Stopped, Ended, all_handed};

use crate::gathering::{gather, pour};
use crate::owed::Owed;
use crate::requests::{Replies, Request, Requests};
use crate::stepping::step;
use std::alloc::{AllocError, Global};
use up_num::Memory;
use up_object::{FramesIn, Object, Stepped};
use up_pages::Frames;

/// Does all requests, one after the other.
///
/// After want of memory the request that met it is given up, those behind it come back, and so do all frames that are due: that
/// request's own, and those that came back from the requests that were done.
pub fn run_list(
    object: &mut Object,
    alloc: Global,
    list: Requests,
) -> Result<Replies, (Memory, Requests, Frames)>
    requires keeps { AllKeep object.old list }
    ensures replies { IfOk result (λ replies. replies_in replies ≡ replies_to object.old list) }
    ensures object { OnOk result (object.new ≡ after_all object.old list) }
    ensures frames { IfOk result (λ replies. (kind : FrameKindValue)
        → given_back kind replies + held object.new.birth object.new.journal kind
        ≡ handed kind list + held object.old.birth object.old.journal kind) }
    ensures each { IfOk result (λ replies. EachBalances object.old list replies) }
    ensures own { IfOk result (λ replies. AllBackOwn object.old.banks replies) }
    ensures met { IfErr result (λ failed. length failed.1 < length list) }
    ensures left { IfErr result (λ failed. tried list failed.1 ++ failed.1 ≡ list) }
    ensures stands { IfErr result (λ failed. object.new ≡ after_all object.old (done list failed.1)) }
    ensures back { IfErr result (λ failed. (kind : FrameKindValue)
        → count_kind kind failed.2.items + held object.new.birth object.new.journal kind
        ≡ handed kind (tried list failed.1) + held object.old.birth object.old.journal kind) }
    ensures back_own { IfErr result (λ failed. AllOwn object.old.banks failed.2.items) }
{
    if list.is_empty() {
        list.end();
        return Ok(Owed::new(alloc));
    }
    match rooms_for(alloc, &list, object.size()) {
        Ok((replies, back)) => run_all(object, alloc, list, replies, back),
        Err(memory) => Err(give_up(alloc, memory, list)),
    }
}

/// Room for what so many requests answer, and for all frames that may come back.
fn rooms_for(alloc: Global, list: &Requests, pages: u32) -> Result<(Vec<Stepped>, Frames), Memory>
    ensures replies { IfOk result (λ rooms. (rooms.0.items ≡ []) × (length list.now ≤ vec_capacity rooms.0)) }
    ensures back { IfOk result (λ rooms. (rooms.1.items ≡ []) × (all_handed list.now + pages ≤ rooms.1.room)) }
{
    let Some(most) = most_back(list, pages) else {
        return Err(AllocError);
    };
    let back = Frames::with_room(alloc, most)?;
    match Vec::with_capacity(alloc, list.len()) {
        Ok(replies) => Ok((replies, back)),
        Err(memory) => {
            back.end();
            Err(memory)
        }
    }
}

/// How many frames may come back at most: all that are handed in, and one for each page. None above 2^32 - 1.
fn most_back(list: &Requests, pages: u32) -> Option<u32>
    ensures { IfSome result (λ most. most ≡ all_handed list.now + pages) }
{
    let mut most = pages;
    for place in 0..list.len() {
        most = most.checked_add(count_in(&list.at(place).frames))?;
    }
    Some(most)
}

/// How many frames there are.
fn count_in(frames: &FramesIn) -> u32
    ensures { result ≡ length (frames_of frames.now) }
{
    match frames {
        FramesIn::NoneYet => 0,
        FramesIn::Given(frames) => frames.len(),
        FramesIn::Scanned(_) => 0,
    }
}

/// Gives the first request up.
fn give_up(alloc: Global, memory: Memory, list: Requests) -> (Memory, Requests, Frames)
    requires { 0 < length list }
    ensures { (whole : Whole) → AllKeep whole list → Ended whole whole list result.1 result.2.items }
{
    let mut left = list.into_vec();
    left.reverse();
    let Some(met) = left.pop() else {
        unreachable!()
    };
    left.reverse();
    let Request {
        who: _,
        epoch: _,
        call: _,
        frames,
    } = met;
    (memory, Owed::from_vec(left), frames.into_frames(alloc))
}

/// Does all requests, with room for what they answer and for the frames that may come back.
fn run_all(
    object: &mut Object,
    alloc: Global,
    list: Requests,
    replies: Vec<Stepped>,
    back: Frames,
) -> Result<Replies, (Memory, Requests, Frames)>
    requires keeps { AllKeep object.old list }
    requires none { replies.items ≡ [] }
    requires room { length list ≤ vec_capacity replies }
    requires empty { back.items ≡ [] }
    requires enough { all_handed list + size object.old.birth object.old.journal ≤ back.room }
    ensures ok { IfOk result (λ replies. Ran object.old object.new list replies) }
    ensures err { IfErr result (λ failed. Ended object.old object.new list failed.1 failed.2.items) }
{
    let mut left = list.into_vec();
    left.reverse();
    let mut replies = replies;
    let mut back = back;
    match run_each(object, alloc, &mut left, &mut replies) {
        Ok(()) => {
            left.destroy_empty();
            back.end();
            Ok(Owed::from_vec(replies))
        }
        Err((memory, frames)) => {
            pour(frames, &mut back);
            gather(replies, &mut back);
            left.reverse();
            Err((memory, Owed::from_vec(left), back))
        }
    }
}

/// Does requests, the last one first, until none is left or one meets want of memory.
fn run_each(
    object: &mut Object,
    alloc: Global,
    left: &mut Vec<Request>,
    replies: &mut Vec<Stepped>,
) -> Result<(), (Memory, Frames)>
    requires keeps { AllKeep object.old (reverse left.old.items) }
    requires none { replies.old.items ≡ [] }
    requires room { length left.old.items ≤ vec_capacity replies.old }
    ensures ok { OnOk result (Ran object.old object.new (reverse left.old.items) replies.new.items) }
    ensures empty { OnOk result (left.new.items ≡ []) }
    ensures err { IfErr result (λ failed. Stopped object.old object.new (reverse left.old.items) (reverse left.new.items) replies.new.items failed.1.items) }
{
    while let Some(request) = left.pop() {
        let Request {
            who,
            epoch,
            call,
            frames,
        } = request;
        match step(object, alloc, who, epoch, call, frames) {
            Ok(stepped) => replies.push_reserved(stepped),
            Err(failed) => return Err(failed),
        }
    }
    Ok(())
}
