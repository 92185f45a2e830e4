ghost use Rattle.std.specs.Prelude.{◌≡◌, ◌||◌, [], true, false, length, IsTrue, IfOk, IfErr, OnOk, OnErr};
ghost use Rattle.up_model.specs.Reply as replies;
ghost use Rattle.up_object.specs.Parts.{bank_of};
ghost use Rattle.up_object.specs.Change.{AllAre, AllOwn};
ghost use Rattle.up_object.specs.Whole.{after};
ghost use Rattle.up_object.specs.Answered.{RepliesAsDue, FramesBalance};
ghost use Rattle.up_object.specs.OneCall.{DoesCall, brought_of, frames_of};
ghost use Rattle.up_core.specs.Groups.{is_of_supply, is_of_clean, is_of_reclaim, is_of_size};
ghost use Rattle.up_core.specs.Requests.{kind_taken, Agrees};

use std::alloc::Global;
use up_clean::{begin, dirty, end, query, stats};
use up_fault::{retry, touch};
use up_model::Call;
use up_num::{Bytes, Piece};
use up_object::{By, FramesIn, Object, Step};
use up_reclaim::{borrow, evict, hint, pin, unpin, vacate};
use up_size::{resize, zero};
use up_supply::{detach, fail, leave, packet, supply, tell};

/// Does the call that `call` names, and appends its one entry to the object's journal.
///
/// The frames are those that the call says it brought: ordinary ones, loaned ones for a borrow, none for a call that takes none.
pub fn step(
    object: &mut Object,
    alloc: Global,
    who: u32,
    epoch: u64,
    call: Call,
    frames: FramesIn,
) -> Step
    requires own { AllAre (bank_of object.old.banks (kind_taken call)) (frames_of frames) }
    requires agrees { Agrees call frames }
    requires proper { IsTrue (replies.proper object.old.birth object.old.journal who call) }
    ensures reply { RepliesAsDue object.old who epoch call result }
    ensures object { OnOk result (object.new ≡ after object.old who epoch call) }
    ensures frames { FramesBalance object.old object.new (frames_of frames) result }
    ensures own { IfOk result (λ s. AllOwn object.old.banks s.back.items) }
    ensures same { OnErr result (object.new ≡ object.old) }
    ensures back { IfErr result (λ failed. failed.1.items ≡ frames_of frames) }
{
    step_by(object, alloc, By { who, epoch }, call, frames)
}

fn step_by(object: &mut Object, alloc: Global, by: By, call: Call, frames: FramesIn) -> Step
    requires own { AllAre (bank_of object.old.banks (kind_taken call)) (frames_of frames) }
    requires agrees { Agrees call frames }
    requires proper { IsTrue (replies.proper object.old.birth object.old.journal by.who call) }
    ensures { DoesCall object.old object.new result by.who by.epoch call (frames_of frames) }
{
    let By { who, epoch } = by;
    match call {
        Call::Read { piece, last, .. } => {
            touch(object, alloc, who, epoch, piece, None, last, frames)
        }
        Call::Write {
            off,
            bytes,
            last,
            ..
        } => {
            let piece = piece_of(off, &bytes);
            touch(object, alloc, who, epoch, piece, Some(bytes), last, frames)
        }
        Call::Retry { ticket, .. } => retry(object, alloc, who, epoch, ticket, frames),
        other => resolve(object, alloc, by, other, frames),
    }
}

/// Where these bytes are written.
fn piece_of(off: u64, bytes: &Bytes) -> Piece
    requires { replies.within_page off (length bytes.now) ≡ true }
    ensures { result ≡ record { off = off; len = length bytes.now } }
{
    let len = bytes.len();
    Piece {
        off,
        len: len as u32,
    }
}

/// Puts down the frames of a call that takes none.
fn put_down(alloc: Global, frames: FramesIn)
    requires { frames_of frames ≡ [] }
{
    frames.into_frames(alloc).end();
}

/// Does a call that is no access: those of `up_supply` itself.
fn resolve(object: &mut Object, alloc: Global, by: By, call: Call, frames: FramesIn) -> Step
    requires group { (is_of_supply call || (is_of_clean call || (is_of_reclaim call || is_of_size call))) ≡ true }
    requires own { AllAre (bank_of object.old.banks (kind_taken call)) (frames_of frames) }
    requires agrees { Agrees call frames }
    requires proper { IsTrue (replies.proper object.old.birth object.old.journal by.who call) }
    ensures { DoesCall object.old object.new result by.who by.epoch call (frames_of frames) }
{
    let By { who, epoch } = by;
    match call {
        Call::Supply { range, bytes, .. } => {
            supply(object, alloc, who, epoch, range, bytes, frames)
        }
        Call::Fail { range, code } => {
            put_down(alloc, frames);
            fail(object, alloc, who, epoch, range, code)
        }
        Call::Detach => {
            put_down(alloc, frames);
            detach(object, alloc, who, epoch)
        }
        Call::Packet => {
            put_down(alloc, frames);
            packet(object, alloc, who, epoch)
        }
        Call::Leave { role } => {
            put_down(alloc, frames);
            leave(object, alloc, who, epoch, role)
        }
        Call::Tell(told) => {
            put_down(alloc, frames);
            tell(object, alloc, who, epoch, told)
        }
        other => write_back(object, alloc, by, other, frames),
    }
}

/// Does a call of writeback, of reclaiming or on sizes: those of `up_clean` itself.
fn write_back(object: &mut Object, alloc: Global, by: By, call: Call, frames: FramesIn) -> Step
    requires group { (is_of_clean call || (is_of_reclaim call || is_of_size call)) ≡ true }
    requires own { AllAre (bank_of object.old.banks (kind_taken call)) (frames_of frames) }
    requires agrees { Agrees call frames }
    requires proper { IsTrue (replies.proper object.old.birth object.old.journal by.who call) }
    ensures { DoesCall object.old object.new result by.who by.epoch call (frames_of frames) }
{
    let By { who, epoch } = by;
    match call {
        Call::Dirty { range, .. } => dirty(object, alloc, who, epoch, range, frames),
        Call::Begin { range, zero } => {
            put_down(alloc, frames);
            begin(object, alloc, who, epoch, range, zero)
        }
        Call::End { range, of } => {
            put_down(alloc, frames);
            end(object, alloc, who, epoch, range, of)
        }
        Call::Query { range, room } => {
            put_down(alloc, frames);
            query(object, alloc, who, epoch, range, room)
        }
        Call::Stats { reset } => {
            put_down(alloc, frames);
            stats(object, alloc, who, epoch, reset)
        }
        other => reclaim(object, alloc, by, other, frames),
    }
}

/// Does a call of reclaiming or on sizes: those of `up_reclaim` itself.
fn reclaim(object: &mut Object, alloc: Global, by: By, call: Call, frames: FramesIn) -> Step
    requires group { (is_of_reclaim call || is_of_size call) ≡ true }
    requires own { AllAre (bank_of object.old.banks (kind_taken call)) (frames_of frames) }
    requires agrees { Agrees call frames }
    requires proper { IsTrue (replies.proper object.old.birth object.old.journal by.who call) }
    ensures { DoesCall object.old object.new result by.who by.epoch call (frames_of frames) }
{
    let By { who, epoch } = by;
    match call {
        Call::Pin { range, .. } => pin(object, alloc, who, epoch, range, frames),
        Call::Borrow { page, .. } => borrow(object, alloc, who, epoch, page, frames),
        Call::Vacate { .. } => vacate(object, alloc, who, epoch, frames),
        Call::Hint { range, kind } => {
            put_down(alloc, frames);
            hint(object, alloc, who, epoch, range, kind)
        }
        Call::Unpin { range } => {
            put_down(alloc, frames);
            unpin(object, alloc, who, epoch, range)
        }
        Call::Evict { limit, max } => {
            put_down(alloc, frames);
            evict(object, alloc, who, epoch, limit, max)
        }
        other => {
            put_down(alloc, frames);
            fit(object, alloc, by, other)
        }
    }
}

/// Does a call of `up_size`.
fn fit(object: &mut Object, alloc: Global, by: By, call: Call) -> Step
    requires group { is_of_size call ≡ true }
    ensures { DoesCall object.old object.new result by.who by.epoch call [] }
{
    let By { who, epoch } = by;
    match call {
        Call::Resize { pages } => resize(object, alloc, who, epoch, pages),
        Call::Zero { range } => zero(object, alloc, who, epoch, range),
        _ => unreachable!(),
    }
}
