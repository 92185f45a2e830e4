use crate::pages::{PageNo, PageRange};

/// Why a pager fails pages. The code goes to those who wait now, and is not remembered.
#[derive(Clone, Copy, PartialEq, Eq, Debug)]
pub enum Code {
    Io,
    IoDataIntegrity,
    BadState,
    NoSpace,
    BufferTooSmall,
}

/// Why a call on an object was refused. A page number names the first page that is in the way.
#[derive(Clone, Copy, PartialEq, Eq, Debug)]
pub enum Refusal {
    /// The range or piece passes the object's size.
    Range,
    /// The object has no pager or no user any more.
    Detached,
    /// The pager failed the page that was waited for.
    Pager(Code),
    NotFound(PageNo),
    /// The object doesn't ask before a page gets dirty.
    NotTrap,
    /// The object's size is fixed.
    Fixed,
    Pinned(PageNo),
    Unpinned(PageNo),
    PinLimit(PageNo),
    Unclean(PageNo),
    /// A frame was needed, and a scan of the bank found none.
    NoFrames,
    /// No begin has the number that an end names.
    NotBegun(u64),
}

/// What is asked of a pager: that it supplies an absent page, or lets a clean one get dirty.
#[derive(Clone, Copy, PartialEq, Eq, Debug)]
pub enum AskKind {
    Read,
    Dirty,
}

/// How a page that is there stands to its pager's store.
#[derive(Clone, Copy, PartialEq, Eq, Debug)]
pub enum PageState {
    Clean,
    Dirty,
    AwaitingClean,
}

/// A request that a pager takes. `Complete` is the last one, sent once when the object is detached.
#[derive(Clone, Copy, PartialEq, Eq, Debug)]
pub enum Packet {
    Read(PageRange),
    Dirty(PageRange),
    Complete,
}

/// What has become of a waiting access. The first event on its page that resolves it decides for good.
#[derive(Clone, Copy, PartialEq, Eq, Debug)]
pub enum Outcome {
    Waiting,
    Freed,
    Failed(Code),
    Detached,
    Shrunk,
}
