//! What a sync does next, and how it ends.
ghost use Rattle.std.specs.Prelude.{◌≡◌, IfOk};
ghost use Rattle.up_live.specs.Courses.{step_of, next_after};

use std::alloc::Global;
use up_claims::{Chosen, SiteReply, SiteStep};
use up_num::Memory;

/// How a sync ended.
#[derive(Clone, Copy, PartialEq, Eq, Debug)]
pub enum SyncEnd {
    /// Each page was written back, and the disk was synced.
    Synced,
    /// A page could not be stored, or the disk not synced.
    Failed,
}

// What a sync does next.
#[derive(Clone, Copy, Debug)]
pub(crate) enum SyncTask {
    // Begins the writeback of some of its pages.
    Pick,
    Copy,
    Store,
    End,
    // Syncs the disk.
    Flush,
}

// It goes on with a task, or is over.
#[derive(Clone, Copy, Debug)]
pub(crate) enum SyncNext {
    GoesOn(SyncTask),
    IsOver(SyncEnd),
}

// The step of a task. A pick is from a copy of the set.
pub(crate) fn step_of(alloc: Global, task: SyncTask, set: &Chosen) -> Result<SiteStep, Memory>
    ensures { IfOk result (λ step. step ≡ step_of task set.now) }
{
    match task {
        SyncTask::Pick => Ok(SiteStep::PickFrom(set.copy(alloc)?)),
        SyncTask::Copy => Ok(SiteStep::Copy),
        SyncTask::Store => Ok(SiteStep::Store),
        SyncTask::End => Ok(SiteStep::End),
        SyncTask::Flush => Ok(SiteStep::Flush),
    }
}

// What comes after an answer.
pub(crate) fn next_after(answer: &SiteReply) -> SyncNext
    ensures { result ≡ next_after answer.now }
{
    match answer {
        SiteReply::Claimed(_) => SyncNext::GoesOn(SyncTask::Copy),
        SiteReply::Copied => SyncNext::GoesOn(SyncTask::Store),
        SiteReply::Stored { more: true } => SyncNext::GoesOn(SyncTask::Store),
        SiteReply::Stored { more: false } => SyncNext::GoesOn(SyncTask::End),
        SiteReply::Ended | SiteReply::Busy(_) => SyncNext::GoesOn(SyncTask::Pick),
        SiteReply::Clear => SyncNext::GoesOn(SyncTask::Flush),
        SiteReply::Flushed { ok: true } => SyncNext::IsOver(SyncEnd::Synced),
        _ => SyncNext::IsOver(SyncEnd::Failed),
    }
}
