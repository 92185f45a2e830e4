//! The two public calls.
ghost use Rattle.std.specs.Prelude.{◌≡◌, IsTrue, IfOk, IfErr, OnOk, OnErr, IfSome, length};
ghost use Rattle.up_bank.specs.declared.kind.FrameKind.TheVariants.{Ordinary as OrdinaryKind};
ghost use Rattle.up_model.specs.Reply as replies;
ghost use Rattle.up_model.specs.declared.entry.Call.TheVariants.{Retry as RetryCall};
ghost use Rattle.up_object.specs.Parts.{bank_of};
ghost use Rattle.up_object.specs.Change.{AllAre, AllOwn};
ghost use Rattle.up_object.specs.Whole.{after};
ghost use Rattle.up_object.specs.Answered.{RepliesAsDue, FramesBalance};
ghost use Rattle.up_object.specs.OneCall.{brought_of, frames_of};
ghost use Rattle.up_fault.specs.Calls.{touch_call};

use crate::reading::{Reading, read_piece};
use crate::retrying::{Retrying, try_again};
use crate::writing::{Writing, write_piece};
use core::mem::replace_with;
use std::alloc::Global;
use up_num::{Bytes, PageNo, Piece};
use up_object::{By, FramesIn, Object, Step};

/// Reads a piece, or writes bytes there; `last` is the page in which the whole access ends. It answers `Bytes` or `Done`;
/// `Blocked` where the page isn't there, or has to ask before it gets dirty; `Needs` where a write needs a frame.
pub fn touch(
    object: &mut Object,
    alloc: Global,
    who: u32,
    epoch: u64,
    piece: Piece,
    write: Option<Bytes>,
    last: PageNo,
    frame: FramesIn,
) -> Step
    requires proper { IsTrue (replies.proper object.old.birth object.old.journal who
        (touch_call piece write last (brought_of frame))) }
    requires own { AllAre (bank_of object.old.banks OrdinaryKind) (frames_of frame) }
    requires bytes { IfSome write (λ bytes. length bytes ≡ piece.len) }
    ensures reply { RepliesAsDue object.old who epoch
        (touch_call piece write last (brought_of frame)) result }
    ensures object { OnOk result (object.new
        ≡ after object.old who epoch (touch_call piece write last (brought_of frame))) }
    ensures frames { FramesBalance object.old object.new (frames_of frame) result }
    ensures own { IfOk result (λ step. AllOwn object.old.banks step.back.items) }
    ensures same { OnErr result (object.new ≡ object.old) }
    ensures back { IfErr result (λ failed. failed.1.items ≡ frames_of frame) }
{
    let brought = frame.brought();
    let frames = frame.into_frames(alloc);
    let by = By { who, epoch };
    match write {
        None => {
            let reading = Reading {
                alloc,
                by,
                piece,
                last,
                brought,
            };
            replace_with(object, (reading, frames), read_piece)
        }
        Some(bytes) => {
            let writing = Writing {
                alloc,
                by,
                off: piece.off,
                last,
                brought,
            };
            replace_with(object, (writing, bytes, frames), write_piece)
        }
    }
}

/// Goes on with the access that waits under a ticket of `who`. It answers `Waiting` where nothing has become of the ticket,
/// which then stays; what the access gives now where it was freed; else why it failed.
pub fn retry(
    object: &mut Object,
    alloc: Global,
    who: u32,
    epoch: u64,
    ticket: u64,
    frame: FramesIn,
) -> Step
    requires proper { IsTrue (replies.proper object.old.birth object.old.journal who
        (RetryCall ticket (brought_of frame))) }
    requires own { AllAre (bank_of object.old.banks OrdinaryKind) (frames_of frame) }
    ensures reply { RepliesAsDue object.old who epoch (RetryCall ticket (brought_of frame)) result }
    ensures object { OnOk result (object.new
        ≡ after object.old who epoch (RetryCall ticket (brought_of frame))) }
    ensures frames { FramesBalance object.old object.new (frames_of frame) result }
    ensures own { IfOk result (λ step. AllOwn object.old.banks step.back.items) }
    ensures same { OnErr result (object.new ≡ object.old) }
    ensures back { IfErr result (λ failed. failed.1.items ≡ frames_of frame) }
{
    let brought = frame.brought();
    let frames = frame.into_frames(alloc);
    let by = By { who, epoch };
    let retrying = Retrying {
        alloc,
        by,
        ticket,
        brought,
    };
    replace_with(object, (retrying, frames), try_again)
}
