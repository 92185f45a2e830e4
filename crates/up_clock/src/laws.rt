//! Laws over the rule of a clock. Each is a function with an empty body, whose clause is the law.
ghost use Rattle.up_clock.specs.Laws.{NeverFalls};

/// The clock shows no less than any seat was ever told.
pub fn never_falls()
    ensures { NeverFalls }
{}
