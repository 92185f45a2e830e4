ghost use Rattle.std.specs.Prelude.{◌≡◌};
ghost use Rattle.std.specs.Bool.{Decides};

use up_num::{
    Bytes, Code, Items, Packet, PageNo, PageRange, PageSeq, Piece, RangeSeq, Refusal, Woken,
};

/// What an object is born with.
#[derive(Clone, Copy, PartialEq, Eq, Debug)]
pub struct Birth {
    /// How many pages it has at first.
    pub pages: u32,
    /// The greatest number of pages that a resize may give; none for an object of fixed size.
    pub limit: Option<u32>,
    /// Whether it asks its pager before a page gets dirty.
    pub trap: bool,
    pub users: u32,
    pub pagers: u32,
    /// Whether the sample pager keeps it on a disk.
    pub image: bool,
    /// Whether each begin has a number, and an end names the begin that it ends.
    pub numbered: bool,
}

/// The frames that a call brought for the pages that it fills.
#[derive(Clone, Copy, PartialEq, Eq, Debug)]
pub enum Brought {
    /// None yet, or an empty list.
    Nothing,
    /// So many frames, at least one.
    Frames(u32),
    /// No frame, but a scan of the bank that found none.
    Scanned,
}

#[derive(Clone, Copy, PartialEq, Eq, Debug)]
pub enum Role {
    User,
    Pager,
}

#[derive(Clone, Copy, PartialEq, Eq, Debug)]
pub enum HintKind {
    /// The pages are never evicted.
    Always,
    /// The pages are evicted first.
    Cold,
}

/// What the sample pager says that it did. It changes no page.
#[derive(Clone, Copy, PartialEq, Eq, Debug)]
pub enum Told {
    Fetched { page: PageNo, ok: bool },
    Copied(PageRange),
    Stored { page: PageNo, ok: bool },
    Flushed { ok: bool },
    Busy { pages: u32, claim: PageRange },
}

/// A call on an object. Offsets and lengths count bytes.
#[derive(Debug, Drop)]
pub enum Call {
    /// Reads a piece. `last` is the page in which the whole access ends.
    Read {
        piece: Piece,
        last: PageNo,
        brought: Brought,
    },
    /// Writes bytes that lie in one page.
    Write {
        off: u64,
        bytes: Bytes,
        last: PageNo,
        brought: Brought,
    },
    /// Goes on with the access that waits under this ticket.
    Retry {
        ticket: u64,
        brought: Brought,
    },
    /// Fills absent pages. Pages that are there stay.
    Supply {
        range: PageRange,
        bytes: Bytes,
        brought: Brought,
    },
    /// Fails the accesses that wait for these pages now.
    Fail {
        range: PageRange,
        code: Code,
    },
    /// Lets pages get dirty.
    Dirty {
        range: PageRange,
        brought: Brought,
    },
    /// Begins the writeback of pages.
    Begin {
        range: PageRange,
        zero: bool,
    },
    /// Ends the writeback of pages; on a numbered object, of the begin with the number `of`.
    End {
        range: PageRange,
        of: Option<u64>,
    },
    /// Lists the pages that await writeback, at most `room` runs.
    Query {
        range: PageRange,
        room: u32,
    },
    /// Whether the object was changed since the last reset.
    Stats {
        reset: bool,
    },
    Hint {
        range: PageRange,
        kind: HintKind,
    },
    Pin {
        range: PageRange,
        brought: Brought,
    },
    Unpin {
        range: PageRange,
    },
    /// Makes at most `max` pages absent, of those of this age or older.
    Evict {
        limit: u32,
        max: u32,
    },
    /// Puts a loaned frame under a page.
    Borrow {
        page: PageNo,
        brought: Brought,
    },
    /// Takes all loaned frames away.
    Vacate {
        brought: Brought,
    },
    Resize {
        pages: u32,
    },
    /// Makes pages read as zeros.
    Zero {
        range: PageRange,
    },
    Detach,
    /// Takes the next packet.
    Packet,
    Leave {
        role: Role,
    },
    Tell(Told),
}

/// What a call answers.
#[derive(PartialEq, Eq, Debug, Drop)]
pub enum Reply {
    Bytes(Bytes),
    Done,
    /// The writeback has begun, under this number.
    Began(u64),
    /// The access waits under this ticket.
    Blocked(u64),
    /// The access under the ticket still waits.
    Waiting,
    /// So many frames are needed, and nothing was changed.
    Needs(u32),
    /// So many pages took bytes, and these tickets were woken.
    Took { pages: u32, woke: Woken },
    Woke(Woken),
    /// How many runs there are, and the first of them.
    Ranges { total: u32, list: RangeSeq },
    Modified(bool),
    Pages(PageSeq),
    /// Whether a frame was borrowed by this call.
    Borrowed(bool),
    Vacated { moved: PageSeq, evicted: PageSeq },
    Packet(Packet),
    /// No packet is left for now.
    Empty,
    /// No packet will come any more.
    Finished,
    /// The role was left, and so many tickets were woken.
    Left(u64),
    Noted,
    Refused(Refusal),
}

impl Reply {
    /// Whether the two are the same reply.
    pub fn same(&self, other: &Reply) -> bool
        ensures { Decides result (self.now ≡ other.now) }
    {
        self == other
    }
}

/// One call of an actor on an object, and its reply. `epoch` is the generation that the clock showed.
#[derive(Debug, Drop)]
pub struct Entry {
    pub who: u32,
    pub epoch: u64,
    pub call: Call,
    pub reply: Reply,
}

/// A journal that has ended, oldest entry first.
pub type Entries = Items<Entry>;
