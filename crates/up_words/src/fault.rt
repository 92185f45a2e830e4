ghost use Rattle.std.specs.Prelude.{◌≡◌};
ghost use Rattle.up_words.specs.ReadSteps.{fault_of};
ghost use Rattle.up_words.specs.declared.fault.Stop.TheVariants.{Memory as MemoryStop};
ghost use Rattle.up_words.specs.declared.fault.ReadFault.TheVariants.{Memory as MemoryFault};

use std::alloc::AllocError;

/// Why a line of a text isn't in its grammar or its limits.
#[derive(Clone, Copy, PartialEq, Eq, Debug)]
pub enum Why {
    /// The text or the line is too long.
    Long,
    /// There are too many lines, objects, actors or bytes in sum.
    Limit,
    /// The line has no newline.
    Cut,
    /// The first line isn't the stated one.
    Header,
    /// A byte that no word may have, a wrong space, an unknown or misplaced word, or a wrong number of words.
    Word,
    /// A name that is malformed, doubled or not declared.
    Name,
    /// A number that is malformed or outside its limits.
    Number,
    /// A byte list that is malformed or of a wrong length.
    Bytes,
    /// Something that this actor can't do, or that can't be done to this object.
    Role,
    /// A line of an actor on an object that it has left.
    Left,
    /// A declaration is missing.
    Missing,
    /// A position or a count that isn't the next one.
    Order,
}

/// The first fault of a text: its line, counted from 1 (0 for the whole text), and the reason.
#[derive(Clone, Copy, PartialEq, Eq, Debug)]
pub struct Fault {
    pub line: u32,
    pub why: Why,
}

/// Why a part of a line wasn't read.
#[derive(Clone, Copy, PartialEq, Eq, Debug)]
pub enum Stop {
    Found(Why),
    Memory,
}

/// Why a text wasn't read.
#[derive(Clone, Copy, PartialEq, Eq, Debug)]
pub enum ReadFault {
    /// The text is outside its grammar or a limit: its first faulty line, and the first reason there.
    Bad { line: u32, why: Why },
    Memory,
}

impl From<AllocError> for Stop {
    ghost from_gives = { λ _ stop. stop ≡ MemoryStop };

    fn from(_failed: AllocError) -> Stop {
        Stop::Memory
    }
}

impl<T: Drop> From<(AllocError, T)> for Stop {
    ghost from_gives = { λ _ stop. stop ≡ MemoryStop };

    fn from(_failed: (AllocError, T)) -> Stop {
        Stop::Memory
    }
}

impl From<AllocError> for ReadFault {
    ghost from_gives = { λ _ fault. fault ≡ MemoryFault };

    fn from(_failed: AllocError) -> ReadFault {
        ReadFault::Memory
    }
}

impl Stop {
    /// What stopped a line, as a fault of the text at the line of this number.
    pub fn at(self, line: u32) -> ReadFault
        ensures { result ≡ fault_of line self }
    {
        match self {
            Stop::Found(why) => ReadFault::Bad { line, why },
            Stop::Memory => ReadFault::Memory,
        }
    }
}
