ghost use Rattle.std.specs.Prelude.{◌≡◌, IfOk};
ghost use Rattle.up_worker.specs.Program.{step_of, is_for_read, task_after, sync_after, is_busy, or_set, set_after, frames_first, frames_asked};

use std::alloc::Global;
use up_claims::{Chosen, SiteReply, SiteStep};
use up_num::{AskKind, Memory, PageNo};

/// What a sample pager's worker, or a user's sync, does next.
#[derive(Clone, Copy, PartialEq, Eq, Debug)]
pub enum Task {
    /// Does what is most urgent; a writeback before a fetch where it is said.
    Pick { write_first: bool },
    /// Delivers the page that was fetched, well or not.
    Deliver { good: bool },
    /// Copies the pages whose writeback has begun.
    Copy,
    /// Stores the next of them.
    Store,
    /// Ends the writeback.
    End,
    /// Denies a page for which no frame is to be had.
    Deny { kind: AskKind, page: PageNo },
    /// Asks which pages are unclean.
    Survey,
    /// Begins the writeback of some of a set of pages.
    PickFrom,
    /// Syncs the disk.
    Flush,
}

// The step of a task; a sync picks from a copy of its set.
pub(crate) fn step_of(alloc: Global, task: Task, set: &Chosen) -> Result<SiteStep, Memory>
    ensures { IfOk result (λ step. step ≡ step_of task set.now) }
{
    match task {
        Task::Pick { write_first } => Ok(SiteStep::Pick { write_first }),
        Task::Deliver { .. } => Ok(SiteStep::Deliver),
        Task::Copy => Ok(SiteStep::Copy),
        Task::Store => Ok(SiteStep::Store),
        Task::End => Ok(SiteStep::End),
        Task::Deny { kind, page } => Ok(SiteStep::Deny { kind, page }),
        Task::Survey => Ok(SiteStep::Survey),
        Task::PickFrom => Ok(SiteStep::PickFrom(set.copy(alloc)?)),
        Task::Flush => Ok(SiteStep::Flush),
    }
}

fn is_for_read(task: Task) -> bool
    ensures { result ≡ is_for_read task }
{
    match task {
        Task::Deny {
            kind: AskKind::Read,
            ..
        } => true,
        _ => false,
    }
}

// A worker's next task after an answer.
pub(crate) fn task_after(task: Task, answer: &SiteReply) -> Task
    ensures { result ≡ task_after task answer.now }
{
    match answer {
        SiteReply::Denied(page) => Task::Deny {
            kind: AskKind::Dirty,
            page: *page,
        },
        SiteReply::Fetched { ok, .. } => Task::Deliver { good: *ok },
        SiteReply::NoFrame(page) => Task::Deny {
            kind: AskKind::Read,
            page: *page,
        },
        SiteReply::Claimed(_) => Task::Copy,
        SiteReply::Copied => Task::Store,
        SiteReply::Stored { more: true } => Task::Store,
        SiteReply::Stored { more: false } => Task::End,
        SiteReply::Passed => Task::Pick {
            write_first: is_for_read(task),
        },
        _ => Task::Pick { write_first: false },
    }
}

// A sync's next task after an answer. None: it is done.
pub(crate) fn sync_after(answer: &SiteReply) -> Option<Task>
    ensures { result ≡ sync_after answer.now }
{
    match answer {
        SiteReply::Surveyed(_) | SiteReply::Ended | SiteReply::Busy(_) => Some(Task::PickFrom),
        SiteReply::Claimed(_) => Some(Task::Copy),
        SiteReply::Copied | SiteReply::Stored { more: true } => Some(Task::Store),
        SiteReply::Stored { more: false } => Some(Task::End),
        SiteReply::Clear => Some(Task::Flush),
        _ => None,
    }
}

// The set of a sync after an answer, where it is another one.
pub(crate) fn new_set(
    alloc: Global,
    set: &Chosen,
    answer: &SiteReply,
) -> Result<Option<Chosen>, Memory>
    ensures { IfOk result (λ found. or_set found set.now ≡ set_after set.now answer.now) }
{
    match answer {
        SiteReply::Surveyed(found) => Ok(Some(found.copy(alloc)?)),
        SiteReply::Claimed(range) => {
            let mut rest = set.copy(alloc)?;
            rest.remove(*range)?;
            Ok(Some(rest))
        }
        _ => Ok(None),
    }
}

pub(crate) fn is_busy(answer: &SiteReply) -> bool
    ensures { result ≡ is_busy answer.now }
{
    match answer {
        SiteReply::Busy(_) => true,
        _ => false,
    }
}

// How many frames are gathered before a step.
pub(crate) fn frames_first(task: Task) -> u32
    ensures { result ≡ frames_first task }
{
    match task {
        Task::Deliver { good: true } => 1,
        _ => 0,
    }
}

// How many frames an answer asks for.
pub(crate) fn frames_asked(answer: &SiteReply) -> Option<u32>
    ensures { result ≡ frames_asked answer.now }
{
    match answer {
        SiteReply::Needs(count) => Some(*count),
        _ => None,
    }
}
