//! Which of its answers an access gets.
ghost use Rattle.std.specs.Prelude.{◌≡◌, ◌+◌, ◌*◌, ◌&&◌, ◌<◌, not, List, ℕ, nat_le};
ghost use Rattle.up_model.specs.declared.entry.Brought.TheVariants.{Frames};
ghost use Rattle.up_model.specs.Attempts.{page_of};
ghost use Rattle.up_model.specs.Reply.{needs_own_frame};
ghost use Rattle.up_model.specs.Roles as roles;
ghost use Rattle.up_model.specs.Size as sizes;
ghost use Rattle.up_model.specs.States.{dirty};
ghost use Rattle.up_model.specs.Value.{there};
ghost use Rattle.up_fault.specs.Accesses.{access_in, wait_verdict, frame_verdict, decision, Decided};

use crate::access::{Attempt, Decision, fits, is_dirty, page_in};
use up_model::Brought;
use up_num::{AskKind, PageNo, Refusal};
use up_object::{Declined, Object};

/// What an access comes to, with what was brought for it: whatever the bytes of a write.
pub(crate) fn decide(object: &Object, attempt: &Attempt, brought: Brought) -> Decision
    requires some { 0 < attempt.now.len }
    ensures { (bytes : List ℕ) → Decided object.now.birth object.now.journal (access_in attempt.now bytes) brought result }
{
    object.is_legal();
    judge(object, attempt, brought)
}

fn judge(object: &Object, attempt: &Attempt, brought: Brought) -> Decision
    requires some { 0 < attempt.now.len }
    ensures { result ≡ decision
        (nat_le (attempt.now.off + attempt.now.len) (4096 * sizes.size object.now.birth object.now.journal))
        (there object.now.birth object.now.journal (page_of attempt.now.off))
        attempt.now.write
        (object.now.birth.trap && not (dirty object.now.birth object.now.journal (page_of attempt.now.off)))
        (needs_own_frame object.now.birth object.now.journal (page_of attempt.now.off))
        (roles.detached object.now.birth object.now.journal) brought }
{
    if !fits(object, attempt) {
        return Decision::Decline(Declined::Refused(Refusal::Range));
    }
    let page = PageNo(page_in(object, attempt.off));
    if !object.has_page(page) {
        return must_wait(object.detached(), AskKind::Read);
    }
    if !attempt.write {
        return Decision::Done;
    }
    if object.born().trap && !is_dirty(object, page) {
        return must_wait(object.detached(), AskKind::Dirty);
    }
    if object.needs_frame(page) {
        return with_frame(brought);
    }
    Decision::Done
}

fn must_wait(detached: bool, kind: AskKind) -> Decision
    ensures { result ≡ wait_verdict detached kind }
{
    if detached {
        Decision::Decline(Declined::Refused(Refusal::Detached))
    } else {
        Decision::Park(kind)
    }
}

/// A write that needs one frame.
fn with_frame(brought: Brought) -> Decision
    ensures { result ≡ frame_verdict brought }
{
    match brought {
        Brought::Nothing => Decision::Decline(Declined::Needs(1)),
        Brought::Frames(count) => with_frames(count),
        Brought::Scanned => Decision::Decline(Declined::Refused(Refusal::NoFrames)),
    }
}

fn with_frames(count: u32) -> Decision
    ensures { result ≡ frame_verdict (Frames count) }
{
    if count < 1 {
        Decision::Decline(Declined::Needs(1))
    } else {
        Decision::Done
    }
}
