ghost use Rattle.std.specs.Prelude.{◌≡◌};
ghost use Rattle.up_replies.specs.Kinds.{reply_size, reply_verb};

/// What a reply's words spell, by the first of them and how many they are.
#[derive(Clone, Copy)]
pub enum ReplyKind {
    Bytes,
    Done,
    Waiting,
    Noted,
    Empty,
    Finished,
    Blocked,
    Needs,
    Took,
    Woke,
    Ranges,
    Modified,
    Borrowed,
    Pages,
    Vacated,
    PacketRead,
    PacketDirty,
    PacketComplete,
    Left,
    /// A refusal that names no page.
    RefusedPlain,
    /// A refusal that names a page.
    RefusedPage,
    /// The number of a begin.
    Began,
    /// A refusal that names a number that no begin has.
    RefusedNumber,
}

/// The kinds of replies of each text.
pub const REPLIES: [ReplyKind; 21] = [
    ReplyKind::Bytes,
    ReplyKind::Done,
    ReplyKind::Waiting,
    ReplyKind::Noted,
    ReplyKind::Empty,
    ReplyKind::Finished,
    ReplyKind::Blocked,
    ReplyKind::Needs,
    ReplyKind::Took,
    ReplyKind::Woke,
    ReplyKind::Ranges,
    ReplyKind::Modified,
    ReplyKind::Borrowed,
    ReplyKind::Pages,
    ReplyKind::Vacated,
    ReplyKind::PacketRead,
    ReplyKind::PacketDirty,
    ReplyKind::PacketComplete,
    ReplyKind::Left,
    ReplyKind::RefusedPlain,
    ReplyKind::RefusedPage,
];

/// Those that a text has besides where it has numbers of begins.
pub const NUMBERED: [ReplyKind; 2] = [ReplyKind::Began, ReplyKind::RefusedNumber];

impl ReplyKind {
    /// The first word of such a reply.
    pub fn verb(self) -> &'static [u8]
        ensures { result.now ≡ reply_verb self }
    {
        match self {
            ReplyKind::Bytes => b"bytes",
            ReplyKind::Done => b"done",
            ReplyKind::Waiting => b"waiting",
            ReplyKind::Noted => b"noted",
            ReplyKind::Empty => b"empty",
            ReplyKind::Finished => b"finished",
            ReplyKind::Blocked => b"blocked",
            ReplyKind::Needs => b"needs",
            ReplyKind::Took => b"took",
            ReplyKind::Woke => b"woke",
            ReplyKind::Ranges => b"ranges",
            ReplyKind::Modified => b"modified",
            ReplyKind::Borrowed => b"borrowed",
            ReplyKind::Pages => b"pages",
            ReplyKind::Vacated => b"vacated",
            ReplyKind::PacketRead | ReplyKind::PacketDirty => b"packet",
            ReplyKind::PacketComplete => b"packet",
            ReplyKind::Left => b"left",
            ReplyKind::RefusedPlain | ReplyKind::RefusedPage => b"refused",
            ReplyKind::RefusedNumber => b"refused",
            ReplyKind::Began => b"began",
        }
    }

    /// How many words such a reply has.
    pub fn size(self) -> usize
        ensures { result ≡ reply_size self }
    {
        match self {
            ReplyKind::Done | ReplyKind::Waiting | ReplyKind::Noted => 1,
            ReplyKind::Empty | ReplyKind::Finished => 1,
            ReplyKind::Bytes | ReplyKind::Blocked | ReplyKind::Needs | ReplyKind::Woke => 2,
            ReplyKind::Modified | ReplyKind::Borrowed | ReplyKind::Pages => 2,
            ReplyKind::PacketComplete | ReplyKind::Left | ReplyKind::RefusedPlain => 2,
            ReplyKind::Began => 2,
            ReplyKind::Ranges | ReplyKind::Vacated | ReplyKind::RefusedPage => 3,
            ReplyKind::RefusedNumber => 3,
            ReplyKind::Took | ReplyKind::PacketRead | ReplyKind::PacketDirty => 4,
        }
    }
}
