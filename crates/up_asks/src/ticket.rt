use up_num::{AskKind, Bytes, Outcome, PageNo};

/// An access that parked: whose it is, what it asked for, and what has become of it.
#[derive(Clone, Copy, Debug)]
pub struct Ticket {
    pub who: u32,
    pub kind: AskKind,
    pub first: u32,
    pub count: u32,
    pub outcome: Outcome,
}

/// The piece that waits under a ticket: where it starts, how many bytes it has, the page in which its access ends, and the
/// bytes of a write.
#[derive(Debug, Drop)]
pub struct Waiter {
    pub write: bool,
    pub off: u64,
    pub bytes: Bytes,
    pub len: u32,
    pub last: PageNo,
}
