//! Reads.
ghost use Rattle.std.specs.Prelude.{◌≡◌, [], false, IsTrue};
ghost use Rattle.up_bank.specs.declared.kind.FrameKind.TheVariants.{Ordinary as OrdinaryKind};
ghost use Rattle.up_model.specs.Reply as replies;
ghost use Rattle.up_object.specs.Parts.{bank_of};
ghost use Rattle.up_object.specs.Change.{AllAre};
ghost use Rattle.up_object.specs.OneCall.{DoesCall, declined_reply};
ghost use Rattle.up_fault.specs.Accesses.{access_in, Parking, Doing};
ghost use Rattle.up_fault.specs.Calls.{read_call, read_attempt};

use crate::access::{Attempt, Decision, page_in};
use crate::deciding::decide;
use crate::wanting::{park, want};
use std::alloc::Global;
use up_asks::Waiter;
use up_bank::FrameKind;
use up_model::{Brought, Call, Reply};
use up_num::{AskKind, Bytes, Memory, PageNo, Piece};
use up_object::changing::{open, open_asking};
use up_object::{By, Declined, Object, Step, Stepped, decline};
use up_pages::Frames;

/// A read, as it was called.
#[derive(Clone, Copy)]
pub(crate) struct Reading {
    pub(crate) alloc: Global,
    pub(crate) by: By,
    pub(crate) piece: Piece,
    pub(crate) last: PageNo,
    pub(crate) brought: Brought,
}

impl Reading {
    fn attempt(&self) -> Attempt
        ensures { result ≡ record { off = self.now.piece.off; len = self.now.piece.len; last = self.now.last; write = false } }
    {
        Attempt {
            off: self.piece.off,
            len: self.piece.len,
            last: self.last,
            write: false,
        }
    }

    fn call(&self) -> Call
        ensures { result ≡ read_call self.now }
    {
        Call::Read {
            piece: self.piece,
            last: self.last,
            brought: self.brought,
        }
    }

    fn waiter(&self) -> Waiter
        ensures { result ≡ record { write = false; off = self.now.piece.off; bytes = []; len = self.now.piece.len; last = self.now.last } }
    {
        Waiter {
            write: false,
            off: self.piece.off,
            bytes: Bytes::new(self.alloc),
            len: self.piece.len,
            last: self.last,
        }
    }
}

/// Reads a piece.
pub(crate) fn read_piece(object: Object, given: (Reading, Frames)) -> (Object, Step)
    requires proper { IsTrue (replies.proper object.birth object.journal given.0.by.who (read_call given.0)) }
    requires own { AllAre (bank_of object.banks OrdinaryKind) given.1.items }
    ensures { DoesCall object result.0 result.1 given.0.by.who given.0.by.epoch (read_call given.0) given.1.items }
{
    let (reading, frames) = given;
    let attempt = reading.attempt();
    match decide(&object, &attempt, reading.brought) {
        Decision::Decline(why) => decline_read(object, reading, why, frames),
        Decision::Park(kind) => park_read(object, reading, kind, frames),
        Decision::Done => read_bytes(object, reading, frames),
    }
}

fn decline_read(object: Object, reading: Reading, why: Declined, frames: Frames) -> (Object, Step)
    requires proper { IsTrue (replies.proper object.birth object.journal reading.by.who (read_call reading)) }
    requires own { AllAre (bank_of object.banks OrdinaryKind) frames.items }
    requires due { replies.access_reply object.birth object.journal (access_in (read_attempt reading) []) reading.brought ≡ declined_reply why }
    ensures { DoesCall object result.0 result.1 reading.by.who reading.by.epoch (read_call reading) frames.items }
{
    decline(
        object,
        reading.alloc,
        reading.by,
        reading.call(),
        why,
        FrameKind::Ordinary,
        frames,
    )
}

/// The page isn't there: the read waits.
fn park_read(object: Object, reading: Reading, kind: AskKind, frames: Frames) -> (Object, Step)
    requires proper { IsTrue (replies.proper object.birth object.journal reading.by.who (read_call reading)) }
    requires own { AllAre (bank_of object.banks OrdinaryKind) frames.items }
    requires waits { Parking object.birth object.journal (access_in (read_attempt reading) []) reading.brought kind }
    ensures { DoesCall object result.0 result.1 reading.by.who reading.by.epoch (read_call reading) frames.items }
{
    let attempt = reading.attempt();
    let Ok(wanted) = want(&object, reading.alloc, &attempt, kind) else {
        return (object, Err((Memory {}, frames)));
    };
    let number = object.next_ticket();
    let entry = reading.by.entry(reading.call(), Reply::Blocked(number));
    let packets = wanted.packets();
    match open_asking(
        object,
        reading.alloc,
        entry,
        FrameKind::Ordinary,
        frames,
        0,
        0,
        packets,
        1,
    ) {
        Ok(changing) => {
            let (object, back) = park(changing, reading.by.who, wanted, reading.waiter());
            let reply = Reply::Blocked(number);
            (object, Ok(Stepped { reply, back }))
        }
        Err((memory, object, frames)) => (object, Err((memory, frames))),
    }
}

/// The page is there: the read gives its bytes.
fn read_bytes(object: Object, reading: Reading, frames: Frames) -> (Object, Step)
    requires proper { IsTrue (replies.proper object.birth object.journal reading.by.who (read_call reading)) }
    requires own { AllAre (bank_of object.banks OrdinaryKind) frames.items }
    requires done { Doing object.birth object.journal (access_in (read_attempt reading) []) reading.brought }
    ensures { DoesCall object result.0 result.1 reading.by.who reading.by.epoch (read_call reading) frames.items }
{
    let Ok(answer) = object.bytes(reading.alloc, &reading.piece) else {
        return (object, Err((Memory {}, frames)));
    };
    let Ok(noted) = object.bytes(reading.alloc, &reading.piece) else {
        return (object, Err((Memory {}, frames)));
    };
    let entry = reading.by.entry(reading.call(), Reply::Bytes(noted));
    let page = page_in(&object, reading.piece.off);
    match open(
        object,
        reading.alloc,
        entry,
        FrameKind::Ordinary,
        frames,
        page,
        page + 1,
    ) {
        Ok(mut changing) => {
            changing.use_page();
            let (object, back) = changing.close(page, page + 1);
            let reply = Reply::Bytes(answer);
            (object, Ok(Stepped { reply, back }))
        }
        Err((memory, object, frames)) => (object, Err((memory, frames))),
    }
}
