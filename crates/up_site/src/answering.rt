//! Answers of steps: what is told by a reply, tickets that are woken, and frames that come back.
ghost use Rattle.std.specs.Prelude.{◌≡◌, [], cond};
ghost use Rattle.up_claims.specs.Claimed.{one_page};
ghost use Rattle.up_claims.specs.Sited.{granted as granted_by, delivered as delivered_by};
ghost use Rattle.up_claims.specs.declared.step.SiteReply.TheVariants as answers;
ghost use Rattle.up_object.specs.OneCall.{frames_of};
ghost use Rattle.up_site.specs.Due.{woken_in, Joined};

use std::alloc::Global;
use up_claims::SiteReply;
use up_model::Reply;
use up_num::{Memory, PageNo, Refusal, Woken};
use up_object::{FramesIn, Stepped};
use up_pages::Frames;

/// What a step answers, the tickets that it woke, and the frames that come back.
pub type SiteStepped = Result<(SiteReply, Woken, Frames), (Memory, Frames)>;

// The same of a step that takes no frames.
pub(crate) type BareStep = Result<(SiteReply, Woken), Memory>;

// The tickets that a call woke.
pub(crate) fn woken_in(alloc: Global, reply: Reply) -> Woken
    ensures { result ≡ woken_in reply }
{
    match reply {
        Reply::Took { pages: _, woke } => woke,
        Reply::Woke(woke) => woke,
        _ => Woken::new(alloc),
    }
}

// The tickets that a call woke which gave no frame back.
pub(crate) fn spend(alloc: Global, stepped: Stepped) -> Woken
    requires none { stepped.back.items ≡ [] }
    ensures { result ≡ woken_in stepped.reply }
{
    let Stepped { reply, back } = stepped;
    back.end();
    woken_in(alloc, reply)
}

// What is told wakes nobody, and gave no frame back.
pub(crate) fn spend_told(alloc: Global, stepped: Stepped) -> Woken
    requires none { stepped.back.items ≡ [] }
    ensures { result ≡ [] }
{
    let Stepped { reply: _, back } = stepped;
    back.end();
    Woken::new(alloc)
}

// Want of memory in a call that took no frames.
pub(crate) fn nothing_back(failed: (Memory, Frames)) -> Memory
    requires none { failed.1.items ≡ [] }
{
    let (memory, back) = failed;
    back.end();
    memory
}

// A step that took no frames, with those that were given beside its answer.
pub(crate) fn with_frames(alloc: Global, bare: BareStep, frames: FramesIn) -> SiteStepped
    ensures { Joined bare result (frames_of frames) }
{
    let given = frames.into_frames(alloc);
    match bare {
        Ok((answer, woke)) => Ok((answer, woke, given)),
        Err(memory) => Err((memory, given)),
    }
}

// What is answered to leave to get dirty.
pub(crate) fn granted(page: u32, reply: &Reply) -> SiteReply
    ensures { result ≡ granted_by (one_page page) reply.now }
{
    match reply {
        Reply::Needs(count) => SiteReply::Needs(*count),
        Reply::Refused(Refusal::NoFrames) => SiteReply::Denied(PageNo(page)),
        _ => SiteReply::Granted,
    }
}

// What is answered to a supply.
pub(crate) fn delivered(page: PageNo, reply: &Reply) -> SiteReply
    ensures { result ≡ delivered_by (one_page page.0) reply.now }
{
    match reply {
        Reply::Refused(Refusal::NoFrames) => SiteReply::NoFrame(page),
        _ => SiteReply::Delivered,
    }
}

// What is answered to a store.
pub(crate) fn stored(ok: bool, more: bool, detached: bool) -> SiteReply
    ensures { result ≡ cond ok (answers.Stored more) (answers.StoreFailed detached) }
{
    if ok {
        SiteReply::Stored { more }
    } else {
        SiteReply::StoreFailed { detached }
    }
}
