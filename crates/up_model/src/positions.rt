//! Laws over all journals: what the definitions say by the last entry is what they mean by positions. Each is a function with
//! an empty body, whose clause is the law.
ghost use Rattle.up_model.specs.Positions.{LastPositionIsLast, BegunIsPlaced, BegunByIsPlaced, SettledIsPlaced, MarkedIsPlaced, AskedIsPlaced, DetachingIsTheStep, DetachingIsPlaced, StatesArePlaced, UseIsPlaced, ColdIsPlaced, GenerationIsPlaced, OutcomeIsPlaced, WakesIsPlaced, AlwaysIsPlaced, LoanedIsPlaced, ModifiedIsPlaced, RolesAreCounted, PinsAreCounted};

/// The last position of an entry that passes a test: it passes there, and none after it does.
pub fn last_position_is_last()
    ensures { LastPositionIsLast }
{}

/// A page's writeback has begun: a begin that counts for the page stands after what dirtied it last.
pub fn begun_is_placed()
    ensures { BegunIsPlaced }
{}

/// So for the begins that an end is for.
pub fn begun_by_is_placed()
    ensures { BegunByIsPlaced }
{}

/// A page is settled: it was never dirtied, or an end stands after such a begin that it is for.
pub fn settled_is_placed()
    ensures { SettledIsPlaced }
{}

/// A page is marked as zeros: a growth or a zero call is the last of what gave it its bytes.
pub fn marked_is_placed()
    ensures { MarkedIsPlaced }
{}

/// A page is asked for: of what asks for it and what resolves it the last asks.
pub fn asked_is_placed()
    ensures { AskedIsPlaced }
{}

/// An entry of a legal journal detaches exactly where the object is detached after it and not before it.
pub fn detaching_is_the_step()
    ensures { DetachingIsTheStep }
{}

/// It is the first entry after which the object is detached.
pub fn detaching_is_placed()
    ensures { DetachingIsPlaced }
{}

/// A page that is there is clean, awaits the end of its writeback, or is dirty, and is plain, by what stands where.
pub fn states_are_placed()
    ensures { StatesArePlaced }
{}

/// The last use of a page.
pub fn use_is_placed()
    ensures { UseIsPlaced }
{}

/// A page is cold: the last hint cold over it stands after its last use.
pub fn cold_is_placed()
    ensures { ColdIsPlaced }
{}

/// The generation of a page: the greatest epoch up to and with its last use.
pub fn generation_is_placed()
    ensures { GenerationIsPlaced }
{}

/// What becomes of a ticket is what the first entry makes of it that makes anything of it.
pub fn outcome_is_placed()
    ensures { OutcomeIsPlaced }
{}

/// Who wakes a ticket is the first to make anything of it.
pub fn wakes_is_placed()
    ensures { WakesIsPlaced }
{}

/// A page is protected: the last hint over it since its last cut is always.
pub fn always_is_placed()
    ensures { AlwaysIsPlaced }
{}

/// A page is on a loaned frame: nothing ended the loan since.
pub fn loaned_is_placed()
    ensures { LoanedIsPlaced }
{}

/// An object was changed: a change stands after the last reset.
pub fn modified_is_placed()
    ensures { ModifiedIsPlaced }
{}

/// Who is left of a role: the number of the birth less those who left.
pub fn roles_are_counted()
    ensures { RolesAreCounted }
{}

/// The pins of a page in a legal journal: the accepted pins less the accepted unpins.
pub fn pins_are_counted()
    ensures { PinsAreCounted }
{}
