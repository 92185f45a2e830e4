use up_model::{Birth, Call};
use up_num::{Bytes, Items};

/// The objects that a script declares, in order.
pub type ObjectLines = Items<ObjectLine>;
/// The actors that a script declares, in order.
pub type ActorLines = Items<ActorLine>;
/// The lines that a script's actors do, in order.
pub type Lines = Items<Line>;
/// Numbers of objects.
pub type Numbers = Items<u32>;

/// What a program does: the frames and the objects that it begins with, its actors and their lines. Lines of the text are
/// counted from 1; objects and actors are counted from 0, in the order of their lines.
#[derive(Debug, Drop)]
pub struct Script {
    /// 1 or 2. In version 1 all objects are ranged.
    pub version: u32,
    /// How many ordinary frames there are.
    pub frames: u32,
    /// The line that says so.
    pub frames_line: u32,
    /// How many loaned frames there are.
    pub loan: u32,
    /// The line that says so, 0 where none does.
    pub loan_line: u32,
    /// Memory is short where fewer frames than this are free.
    pub warn: u32,
    /// Memory is very short where fewer frames than this are free.
    pub critical: u32,
    pub objects: ObjectLines,
    pub actors: ActorLines,
    pub lines: Lines,
}

/// An object: the number of its line, its name, what it is born with, and the name of its image where it has one.
#[derive(Debug, Drop)]
pub struct ObjectLine {
    pub number: u32,
    pub name: Bytes,
    pub birth: Birth,
    pub image: Option<Bytes>,
}

#[derive(Clone, Copy, PartialEq, Eq, Debug)]
pub enum Kind {
    /// Accesses the bytes of objects.
    User,
    /// Serves objects by hand.
    Pager,
    /// Serves an object with image, as the sample pager does.
    Worker,
    /// Makes pages absent, to win frames back.
    Evictor,
}

/// An actor: the number of its line, its name, and the objects that it acts on, by their numbers. An evictor acts on all.
#[derive(Debug, Drop)]
pub struct ActorLine {
    pub number: u32,
    pub name: Bytes,
    pub kind: Kind,
    pub objects: Numbers,
}

/// A line that an actor does. `number` is that of its line in the text.
#[derive(Debug, Drop)]
pub struct Line {
    pub number: u32,
    pub actor: u32,
    pub action: Action,
}

/// What a line does.
#[derive(Debug, Drop)]
pub enum Action {
    /// Goes on with what waits.
    Go,
    Read { object: u32, off: u64, len: u32 },
    Write { object: u32, off: u64, bytes: Bytes },
    /// One call on an object. It brings nothing yet.
    Act { object: u32, call: Call },
    /// Writes back what is unclean, and syncs the disk.
    Sync { object: u32 },
    /// So many steps of the sample pager.
    Turn { object: u32, steps: u32 },
    Age,
    Watch,
    /// Wins so many frames back.
    Relieve(u32),
    Recall,
    Lend,
}
