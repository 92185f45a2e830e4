ghost use Rattle.std.specs.Prelude.{◌≡◌, ◌≤◌};
ghost use Rattle.up_calls.specs.Kinds.{call_size, call_verb};

/// What a call's words spell, by the first of them.
#[derive(Clone, Copy)]
pub enum CallKind {
    Read,
    Write,
    Retry,
    Supply,
    Fail,
    Dirty,
    Begin,
    /// An end without a number, as a ranged journal has them.
    End,
    /// An end that names the number of its begin, as a numbered journal has them.
    EndOf,
    Query,
    Stats,
    Always,
    Cold,
    Pin,
    Unpin,
    Evict,
    Borrow,
    Vacate,
    Resize,
    Zero,
    Detach,
    Packet,
    Leave,
    Fetched,
    Copied,
    Stored,
    Flushed,
    Busy,
}

/// All kinds but those of ends, whose form is the journal's.
pub const CALLS: [CallKind; 26] = [
    CallKind::Read,
    CallKind::Write,
    CallKind::Retry,
    CallKind::Supply,
    CallKind::Fail,
    CallKind::Dirty,
    CallKind::Begin,
    CallKind::Query,
    CallKind::Stats,
    CallKind::Always,
    CallKind::Cold,
    CallKind::Pin,
    CallKind::Unpin,
    CallKind::Evict,
    CallKind::Borrow,
    CallKind::Vacate,
    CallKind::Resize,
    CallKind::Zero,
    CallKind::Detach,
    CallKind::Packet,
    CallKind::Leave,
    CallKind::Fetched,
    CallKind::Copied,
    CallKind::Stored,
    CallKind::Flushed,
    CallKind::Busy,
];

impl CallKind {
    /// The first word of such a call.
    pub fn verb(self) -> &'static [u8]
        ensures { result.now ≡ call_verb self }
    {
        match self {
            CallKind::Read => b"read",
            CallKind::Write => b"write",
            CallKind::Retry => b"retry",
            CallKind::Supply => b"supply",
            CallKind::Fail => b"fail",
            CallKind::Dirty => b"dirty",
            CallKind::Begin => b"begin",
            CallKind::End | CallKind::EndOf => b"end",
            CallKind::Query => b"query",
            CallKind::Stats => b"stats",
            CallKind::Always => b"always",
            CallKind::Cold => b"cold",
            CallKind::Pin => b"pin",
            CallKind::Unpin => b"unpin",
            CallKind::Evict => b"evict",
            CallKind::Borrow => b"borrow",
            CallKind::Vacate => b"vacate",
            CallKind::Resize => b"resize",
            CallKind::Zero => b"zero",
            CallKind::Detach => b"detach",
            CallKind::Packet => b"packet",
            CallKind::Leave => b"leave",
            CallKind::Fetched => b"fetched",
            CallKind::Copied => b"copied",
            CallKind::Stored => b"stored",
            CallKind::Flushed => b"flushed",
            CallKind::Busy => b"busy",
        }
    }

    /// How many words such a call has.
    pub fn size(self) -> u32
        ensures value { result ≡ call_size self }
        ensures least { 1 ≤ result }
        ensures most { result ≤ 5 }
    {
        match self {
            CallKind::Read | CallKind::Write | CallKind::Supply => 5,
            CallKind::Fail | CallKind::Dirty | CallKind::Begin => 4,
            CallKind::EndOf | CallKind::Query | CallKind::Pin | CallKind::Busy => 4,
            CallKind::Retry | CallKind::End | CallKind::Always | CallKind::Cold => 3,
            CallKind::Unpin | CallKind::Evict | CallKind::Borrow | CallKind::Zero => 3,
            CallKind::Fetched | CallKind::Copied | CallKind::Stored => 3,
            CallKind::Stats | CallKind::Vacate | CallKind::Resize => 2,
            CallKind::Leave | CallKind::Flushed => 2,
            CallKind::Detach | CallKind::Packet => 1,
        }
    }
}
