//! Writes.
ghost use Rattle.std.specs.Prelude.{◌≡◌, ◌≤◌, length, true, IsTrue};
ghost use Rattle.up_bank.specs.declared.kind.FrameKind.TheVariants.{Ordinary as OrdinaryKind};
ghost use Rattle.up_model.specs.Reply as replies;
ghost use Rattle.up_object.specs.Parts.{bank_of};
ghost use Rattle.up_object.specs.Change.{AllAre};
ghost use Rattle.up_object.specs.OneCall.{DoesCall, declined_reply};
ghost use Rattle.up_fault.specs.Accesses.{Parking, Doing};
ghost use Rattle.up_fault.specs.Calls.{write_call, write_access};

use crate::access::{Attempt, Decision, page_in, place_in};
use crate::deciding::decide;
use crate::wanting::{park, want};
use std::alloc::Global;
use up_asks::Waiter;
use up_bank::FrameKind;
use up_model::{Brought, Call, Reply};
use up_num::{AskKind, Bytes, Memory, PageNo};
use up_object::changing::{open, open_asking};
use up_object::{By, Declined, Object, Step, Stepped, decline};
use up_pages::Frames;

/// A write, as it was called, without its bytes.
#[derive(Clone, Copy)]
pub(crate) struct Writing {
    pub(crate) alloc: Global,
    pub(crate) by: By,
    pub(crate) off: u64,
    pub(crate) last: PageNo,
    pub(crate) brought: Brought,
}

impl Writing {
    fn attempt(&self, bytes: &Bytes) -> Attempt
        requires { length bytes.now ≤ 4096 }
        ensures { result ≡ record { off = self.now.off; len = length bytes.now; last = self.now.last; write = true } }
    {
        Attempt {
            off: self.off,
            len: bytes.len() as u32,
            last: self.last,
            write: true,
        }
    }

    fn call(&self, bytes: Bytes) -> Call
        ensures { result ≡ write_call self.now bytes }
    {
        Call::Write {
            off: self.off,
            bytes,
            last: self.last,
            brought: self.brought,
        }
    }

    fn waiter(&self, bytes: Bytes) -> Waiter
        requires { length bytes ≤ 4096 }
        ensures { result ≡ record { write = true; off = self.now.off; bytes = bytes; len = length bytes; last = self.now.last } }
    {
        let len = bytes.len() as u32;
        Waiter {
            write: true,
            off: self.off,
            bytes,
            len,
            last: self.last,
        }
    }
}

/// Writes bytes.
pub(crate) fn write_piece(object: Object, given: (Writing, Bytes, Frames)) -> (Object, Step)
    requires proper { IsTrue (replies.proper object.birth object.journal given.0.by.who (write_call given.0 given.1)) }
    requires own { AllAre (bank_of object.banks OrdinaryKind) given.2.items }
    requires frames { replies.frames_in given.0.brought ≤ length given.2.items }
    ensures { DoesCall object result.0 result.1 given.0.by.who given.0.by.epoch (write_call given.0 given.1) given.2.items }
{
    let (writing, bytes, frames) = given;
    let attempt = writing.attempt(&bytes);
    match decide(&object, &attempt, writing.brought) {
        Decision::Decline(why) => decline_write(object, writing, bytes, why, frames),
        Decision::Park(kind) => park_write(object, writing, bytes, kind, frames),
        Decision::Done => write_bytes(object, writing, bytes, frames),
    }
}

fn decline_write(
    object: Object,
    writing: Writing,
    bytes: Bytes,
    why: Declined,
    frames: Frames,
) -> (Object, Step)
    requires proper { IsTrue (replies.proper object.birth object.journal writing.by.who (write_call writing bytes)) }
    requires own { AllAre (bank_of object.banks OrdinaryKind) frames.items }
    requires due { replies.access_reply object.birth object.journal (write_access writing bytes) writing.brought ≡ declined_reply why }
    ensures { DoesCall object result.0 result.1 writing.by.who writing.by.epoch (write_call writing bytes) frames.items }
{
    let call = writing.call(bytes);
    decline(
        object,
        writing.alloc,
        writing.by,
        call,
        why,
        FrameKind::Ordinary,
        frames,
    )
}

/// The page isn't there, or may not get dirty yet: the write waits.
fn park_write(
    object: Object,
    writing: Writing,
    bytes: Bytes,
    kind: AskKind,
    frames: Frames,
) -> (Object, Step)
    requires proper { IsTrue (replies.proper object.birth object.journal writing.by.who (write_call writing bytes)) }
    requires own { AllAre (bank_of object.banks OrdinaryKind) frames.items }
    requires waits { Parking object.birth object.journal (write_access writing bytes) writing.brought kind }
    ensures { DoesCall object result.0 result.1 writing.by.who writing.by.epoch (write_call writing bytes) frames.items }
{
    let attempt = writing.attempt(&bytes);
    let Ok(wanted) = want(&object, writing.alloc, &attempt, kind) else {
        return (object, Err((Memory {}, frames)));
    };
    let Ok(kept) = bytes.copy(writing.alloc) else {
        return (object, Err((Memory {}, frames)));
    };
    let number = object.next_ticket();
    let entry = writing
        .by
        .entry(writing.call(bytes), Reply::Blocked(number));
    let packets = wanted.packets();
    match open_asking(
        object,
        writing.alloc,
        entry,
        FrameKind::Ordinary,
        frames,
        0,
        0,
        packets,
        1,
    ) {
        Ok(changing) => {
            let (object, back) = park(changing, writing.by.who, wanted, writing.waiter(kept));
            let reply = Reply::Blocked(number);
            (object, Ok(Stepped { reply, back }))
        }
        Err((memory, object, frames)) => (object, Err((memory, frames))),
    }
}

/// The page is there, and may get dirty: the write is done.
fn write_bytes(object: Object, writing: Writing, bytes: Bytes, frames: Frames) -> (Object, Step)
    requires proper { IsTrue (replies.proper object.birth object.journal writing.by.who (write_call writing bytes)) }
    requires own { AllAre (bank_of object.banks OrdinaryKind) frames.items }
    requires frames { replies.frames_in writing.brought ≤ length frames.items }
    requires done { Doing object.birth object.journal (write_access writing bytes) writing.brought }
    ensures { DoesCall object result.0 result.1 writing.by.who writing.by.epoch (write_call writing bytes) frames.items }
{
    let Ok(kept) = bytes.copy(writing.alloc) else {
        return (object, Err((Memory {}, frames)));
    };
    let entry = writing.by.entry(writing.call(kept), Reply::Done);
    let page = page_in(&object, writing.off);
    match open(
        object,
        writing.alloc,
        entry,
        FrameKind::Ordinary,
        frames,
        page,
        page + 1,
    ) {
        Ok(mut changing) => {
            changing.write(place_in(writing.off), bytes.as_slice());
            changing.set_changed(true);
            let (object, back) = changing.close(page, page + 1);
            let reply = Reply::Done;
            (object, Ok(Stepped { reply, back }))
        }
        Err((memory, object, frames)) => (object, Err((memory, frames))),
    }
}
