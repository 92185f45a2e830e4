//! What the definition of an actor's wishes says.

ghost use Rattle.up_worker.specs.Laws.{MakesUnderWay, GoesOn, AsksAgain, Retries, GathersAfterNeeds, EndsRefused, LeavesOnce};
ghost use Rattle.up_worker.specs.Courses.{IsTold};
ghost use Rattle.up_worker.specs.Frames.{BringsGathered};
ghost use Rattle.up_worker.specs.Rules.{KeepsRules, LeavesNothing};

/// A wish to act makes the call that isn't settled yet, or the retry of the ticket under which it waits.
pub fn a_wish_makes_the_call_under_way()
    ensures { MakesUnderWay }
{}

/// After a reply that settles a call the next one of the line is under way; after another reply the same one still is.
pub fn a_settled_call_is_not_asked_again()
    ensures next { GoesOn }
    ensures same { AsksAgain }
{}

/// While a ticket is held, what is asked for is its retry.
pub fn a_ticket_is_retried()
    ensures { Retries }
{}

/// Frames are gathered only after a reply that asks for so many, or before a supply, for its pages.
pub fn frames_are_gathered_for_a_need()
    ensures { GathersAfterNeeds }
{}

/// A read or a write ends at its first refusal.
pub fn a_refused_access_ends()
    ensures { EndsRefused }
{}

/// No object is left at the end that a line has left.
pub fn no_object_is_left_twice()
    ensures { LeavesOnce }
{}

/// Where an actor's line is done, the entries that were made for it have settled the calls of its lines, one after the other, and no others: each
/// line's calls in order, an access up to its first refusal. Lines that evict are told otherwise.
pub fn a_course_is_told_by_its_entries()
    ensures { IsTold }
{}

/// While a call is pending, an actor's next entry that is no evict is for that call, and while it holds a ticket it is the retry of it. Where a line is
/// done, nothing is pending and no ticket is held.
pub fn a_course_keeps_the_rules()
    ensures rules { KeepsRules }
    ensures end { LeavesNothing }
{}

/// A call brings nothing at first. After a reply that asks for frames, and for a supply, it brings what a gathering or a loan brought, and the gathering's
/// evicts stand directly before it. Lines that relieve are told otherwise.
pub fn a_call_brings_what_was_gathered()
    ensures { BringsGathered }
{}
