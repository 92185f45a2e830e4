use up_num::{Bytes, PageNo, PageRange};

// How far an actor has come with what it has claimed, and the bytes that it has in hand.
#[derive(Debug, Drop)]
pub(crate) enum Stage {
    /// A page was fetched: its block, where that was read well.
    Fetched {
        page: PageNo,
        block: Option<Bytes>,
    },
    /// A writeback has begun, under this number where it has one.
    Begun {
        range: PageRange,
        number: Option<u64>,
    },
    /// Its pages were copied, and so many of them stored.
    Copied {
        range: PageRange,
        number: Option<u64>,
        bytes: Bytes,
        stored: u32,
    },
}

// An actor and its stage.
#[derive(Debug, Drop)]
pub(crate) struct Tour {
    pub(crate) who: u32,
    pub(crate) stage: Stage,
}
