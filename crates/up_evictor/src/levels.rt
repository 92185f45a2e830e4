ghost use Rattle.std.specs.Prelude.{◌≡◌};
ghost use Rattle.up_evictor.specs.Levels.{level_of};

/// How short memory is.
#[derive(Clone, Copy, PartialEq, Eq, Debug)]
pub enum Level {
    /// Nothing is to be won back.
    Normal,
    /// Pages that weren't used for long are made absent.
    Warning,
    /// So are others, where these aren't enough.
    Critical,
    /// As critical, with no frame free.
    Empty,
}

/// From how many free frames on memory isn't short, and isn't very short.
#[derive(Clone, Copy, PartialEq, Eq, Debug)]
pub struct Levels {
    pub warn: u32,
    pub critical: u32,
}

impl Levels {
    /// How short memory is where so many frames are free.
    pub fn level(&self, free: u32) -> Level
        ensures { result ≡ level_of self.now free }
    {
        if free >= self.warn {
            Level::Normal
        } else if free >= self.critical {
            Level::Warning
        } else if free >= 1 {
            Level::Critical
        } else {
            Level::Empty
        }
    }
}
