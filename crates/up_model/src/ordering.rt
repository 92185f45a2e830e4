//! The order of reclaiming: which pages it has, and how they follow one another. Each law is a function with an empty body,
//! whose clauses are the law.
ghost use Rattle.up_model.specs.Ordering.{GoesBeforeIsOrder, OrderHasEachOnce, OrderRises, WholeOrderIsLoose, OrderIsPart};

/// What goes before a page: no page goes before itself; what goes before one goes before all that this goes before; and of two
/// different pages one goes before the other.
pub fn goes_before_is_an_order()
    ensures { GoesBeforeIsOrder }
{}

/// The order has exactly the pages that may be reclaimed, each once, and each goes before all that follow it.
pub fn the_order_has_each_page_once()
    ensures once { OrderHasEachOnce }
    ensures rises { OrderRises }
{}

/// The order at a limit is the order of all loose pages without those that are neither cold nor so old.
pub fn the_order_at_a_limit_is_a_part()
    ensures whole { WholeOrderIsLoose }
    ensures part { OrderIsPart }
{}
