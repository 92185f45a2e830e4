//! Laws over all legal journals on which an object's parts rely: what goes together of a page, and what holds of asked pages,
//! packets and tickets. Each is a function with an empty body, whose clauses are the law.
ghost use Rattle.up_model.specs.Standing.{PlainIsNotClean, AbsentIsSettled, LoanedIsClean, LoanedIsNotPlain, LoanedIsUnpinned, ReadAsksAreAbsent, ReadAsksLieWithin, DirtyAsksAreThere, DirtyAsksAreNotDirty, PacketsAreAdded, TakenWereSent, HeldTicketsHaveAccesses};

/// A zero page is never clean.
pub fn a_zero_page_is_not_clean()
    ensures { PlainIsNotClean }
{}

/// A page of the object that isn't there is settled.
pub fn an_absent_page_is_settled()
    ensures { AbsentIsSettled }
{}

/// A page with a loaned frame is clean, no zero page, and has no pins.
pub fn a_loaned_page_is_clean()
    ensures clean { LoanedIsClean }
    ensures not_plain { LoanedIsNotPlain }
    ensures unpinned { LoanedIsUnpinned }
{}

/// A page that is asked for to be read isn't there, and lies within the object; one that is asked for to be made dirty is
/// there, and isn't dirty.
pub fn asked_pages_lack_what_is_asked()
    ensures absent { ReadAsksAreAbsent }
    ensures within { ReadAsksLieWithin }
    ensures there { DirtyAsksAreThere }
    ensures not_dirty { DirtyAsksAreNotDirty }
{}

/// Packets are only added at the end, and no more are taken than were sent.
pub fn packets_are_added_at_the_end()
    ensures added { PacketsAreAdded }
    ensures taken { TakenWereSent }
{}

/// A ticket that somebody holds has its access.
pub fn a_held_ticket_has_its_access()
    ensures { HeldTicketsHaveAccesses }
{}
