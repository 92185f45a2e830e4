//! Laws of tales.

ghost use Rattle.up_tales.specs.Life.{LivesATale};

/// An actor each of whose answers follows on what it said, and whose lines are all done, has made a tale of these lines.
pub fn a_life_is_a_tale()
    ensures { LivesATale }
{}
