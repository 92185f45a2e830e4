//! Laws over what a pass has seen. Each is a function with an empty body, whose clause is the law.
ghost use Rattle.up_live.specs.Laws.{ProperStays, ClaimStays, FitsStays};

/// Under entries of others a call that was proper stays so: a ticket that an actor holds is spent by nobody else.
pub fn proper_calls_stay()
    ensures { ProperStays }
{}

/// Under entries of others an actor's claim stays as it was, and so do the steps that it may make.
pub fn claims_stay()
    ensures claim { ClaimStays }
    ensures fits { FitsStays }
{}
