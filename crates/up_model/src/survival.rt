//! Survival: the bytes of a write stay readable until a writeback could have read them. Each law is a function with an empty body,
//! whose clauses are the law.
ghost use Rattle.up_model.specs.Survival.{Survival, StaysUnbegun, ReadBack};

/// A page that was written, and lies within the object since, is there and has the bytes of its last write, growth or zero
/// call; or since then a begin that counts for it and an end over it stand in the journal, nothing dirtied it between them, and
/// it had these bytes from the begin to just before the end.
pub fn a_write_stays_until_a_writeback_could_read_it()
    ensures { Survival }
{}

/// While no begin that counts for the page follows a write in it, its bytes are read back until they are replaced.
pub fn a_write_is_read_back_until_a_begin_counts()
    ensures stays { StaysUnbegun }
    ensures read { ReadBack }
{}
