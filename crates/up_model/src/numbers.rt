//! Laws on numbered writebacks: an end names the begin that it ends. Each is a function with an empty body, whose clauses are
//! the law.
ghost use Rattle.up_model.specs.Numbering.{EndsWhatWasBegun, EmptiesWhatItSettles, RangedCloses, RangedSettles, RangedEmpties, RangedHasNoNumber, EachBeginHasANumber, NumbersAreCounted, BegunIsBelow, UnbegunIsRefused, CountsByNumber};

/// Where an end is for a begin that counts, a writeback that counts has begun.
pub fn an_end_ends_what_was_begun()
    ensures { EndsWhatWasBegun }
{}

/// An end empties the zero pages that it settles.
pub fn an_end_empties_what_it_settles()
    ensures { EmptiesWhatItSettles }
{}

/// On an object that isn't numbered an end is for each begin.
pub fn a_ranged_end_is_for_each_begin()
    ensures closes { RangedCloses }
    ensures settles { RangedSettles }
    ensures empties { RangedEmpties }
{}

/// The begins of a numbered object have numbers, those of another have none.
pub fn numbered_objects_number_begins()
    ensures ranged { RangedHasNoNumber }
    ensures each { EachBeginHasANumber }
{}

/// The begins are numbered in order from 0 on, and an end can name no other number.
pub fn numbers_are_counted()
    ensures counted { NumbersAreCounted }
    ensures below { BegunIsBelow }
    ensures refused { UnbegunIsRefused }
{}

/// Whether the begin of a number counts for a page is told by that number and two others of the page.
pub fn a_begin_counts_by_its_number()
    ensures { CountsByNumber }
{}
