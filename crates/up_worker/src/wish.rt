ghost use Rattle.std.specs.Prelude.{◌≡◌};
ghost use Rattle.up_worker.specs.Wishes.{wants_after, answers, settles, is_refused};

use up_claims::{SiteReply, SiteStep};
use up_model::{Brought, Call, Reply};

/// What an actor wishes to be done next. Whoever carries it out answers by what was heard.
#[derive(Debug, Drop)]
pub enum Wish {
    /// A call on an object. Its reply is heard.
    Act { object: u32, call: Call },
    /// A step of the sample pager on an object. Its answer is heard.
    Site { object: u32, step: SiteStep },
    /// A resize, through the object's site. The site's answer is heard.
    Resize { object: u32, pages: u32 },
    /// So many ordinary frames, with a relief where they aren't free. What was brought is heard.
    Gather(u32),
    /// One loaned frame. What was brought is heard.
    Loan,
    /// All loaned frames that are free, to be kept.
    Keep,
    /// The loaned frames that were kept, to be given back.
    Give,
    /// A relief by so many frames, as where none is free.
    Relieve(u32),
    /// A relief where memory is short.
    Watch,
    /// The clock is to age.
    Age,
    /// The actor waits, and is to be told when it goes on.
    Park { object: u32 },
    /// The line is done.
    LineEnd,
}

/// What is told to an actor of the wish that was carried out.
#[derive(Debug, Drop)]
pub enum Heard {
    Replied(Reply),
    Site(SiteReply),
    Brought(Brought),
    /// A wish without a reply was carried out, or a parked actor goes on.
    Done,
}

/// Which kind of answer the last wish waits for.
#[derive(Clone, Copy, PartialEq, Eq, Debug)]
pub enum Wanted {
    /// None: there was no wish yet, or the line is done.
    Nothing,
    Reply,
    Site,
    Frames,
    Done,
}

impl Wish {
    /// Which kind of answer it waits for.
    pub fn wanted(&self) -> Wanted
        ensures { result ≡ wants_after self.now }
    {
        match self {
            Wish::Act { .. } => Wanted::Reply,
            Wish::Site { .. } | Wish::Resize { .. } => Wanted::Site,
            Wish::Gather(_) | Wish::Loan => Wanted::Frames,
            Wish::Keep
            | Wish::Give
            | Wish::Relieve(_)
            | Wish::Watch
            | Wish::Age
            | Wish::Park { .. } => Wanted::Done,
            Wish::LineEnd => Wanted::Nothing,
        }
    }
}

impl Wanted {
    /// Whether this is an answer of that kind.
    pub fn accepts(self, heard: &Heard) -> bool
        ensures { result ≡ answers self heard.now }
    {
        match (self, heard) {
            (Wanted::Reply, Heard::Replied(_))
            | (Wanted::Site, Heard::Site(_))
            | (Wanted::Frames, Heard::Brought(_))
            | (Wanted::Done, Heard::Done) => true,
            _ => false,
        }
    }
}

// Whether the call with this reply is done with.
pub(crate) fn settles(reply: &Reply) -> bool
    ensures { result ≡ settles reply.now }
{
    match reply {
        Reply::Needs(_) | Reply::Blocked(_) | Reply::Waiting => false,
        _ => true,
    }
}

pub(crate) fn is_refused(reply: &Reply) -> bool
    ensures { result ≡ is_refused reply.now }
{
    match reply {
        Reply::Refused(_) => true,
        _ => false,
    }
}
