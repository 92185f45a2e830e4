//! Laws over the rule of a turn's table, which holds at each moment between two steps of its threads. Each is a function
//! with an empty body, whose clause is the law.
ghost use Rattle.up_turn.specs.Laws.{NumbersApart, EntriesAreOwn, OneHistory};

use crate::chronicle::Chronicle;

/// No number is held by two passes.
pub fn numbers_apart<S: Chronicle>()
    ensures { NumbersApart S.origin S.list }
{}

/// Every entry by a number that a pass holds is one of its own.
pub fn entries_are_own<S: Chronicle>()
    ensures { EntriesAreOwn S.origin S.list }
{}

/// Behind the turn is one list, which every list that a pass has seen begins.
pub fn one_history<S: Chronicle>()
    ensures { OneHistory S.origin S.list }
{}
