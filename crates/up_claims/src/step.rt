use crate::chosen::Chosen;
use up_model::Reply;
use up_num::{AskKind, PageNo, PageRange};

/// The number of a claim. No other claim that is live has it.
#[derive(Clone, Copy, PartialEq, Eq, Debug)]
pub struct ClaimNo(pub u64);

/// A step of the sample pager, or of a user's sync.
#[derive(Debug, Drop)]
pub enum SiteStep {
    /// Does what is most urgent: takes a packet, lets a page get dirty, fetches a page, or begins a writeback, the
    /// last before a fetch where it is said.
    Pick { write_first: bool },
    /// Says which pages are unclean.
    Survey,
    /// Begins a writeback of some of these pages.
    PickFrom(Chosen),
    /// Supplies the page that was fetched, or fails it.
    Deliver,
    /// Copies the bytes that are to be written back.
    Copy,
    /// Writes the next page back.
    Store,
    /// Ends the writeback.
    End,
    /// Fails a page for which no frame can be had.
    Deny { kind: AskKind, page: PageNo },
    /// Syncs the disk.
    Flush,
}

/// What a step of a site, or a resize, answers.
#[derive(Debug, Drop)]
pub enum SiteReply {
    /// A packet was taken.
    Taken,
    /// A page may get dirty.
    Granted,
    /// No frame is to be had for the page that asks to get dirty.
    Denied(PageNo),
    Fetched { page: PageNo, ok: bool },
    /// The writeback of these pages has begun.
    Claimed(PageRange),
    /// So many frames are needed, and nothing was changed.
    Needs(u32),
    Delivered,
    /// No frame is to be had for the page that was fetched.
    NoFrame(PageNo),
    Copied,
    /// A page was written back. Whether pages are left.
    Stored { more: bool },
    /// A page could not be written back. Whether the object is detached.
    StoreFailed { detached: bool },
    Ended,
    Passed,
    Flushed { ok: bool },
    /// The object's resize, with its reply.
    Resized(Reply),
    /// A claim of these pages is in the way.
    Busy(PageRange),
    /// The pages that are unclean.
    Surveyed(Chosen),
    /// None of the pages is unclean any more.
    Clear,
    /// There is nothing to do. Whether the object is detached.
    Idle { detached: bool },
}
