//! What reading and writing say of one another. Each law is a function with an empty body, whose clauses are the law.
ghost use Rattle.up_fields.specs.Laws.{ReadsItsPages, ReadsItsRange, ReadsItsRuns, ReadsItsTickets, ReadsOnlyItsPages, ReadsOnlyItsRange, ReadsOnlyItsRuns, ReadsOnlyItsTickets};

/// A range in its bounds is read from its two numbers' texts, and from no others.
pub fn ranges_have_one_text()
    ensures back { ReadsItsRange }
    ensures only { ReadsOnlyItsRange }
{}

/// A list whose items are in their bounds is read from its text, and from no other.
pub fn lists_have_one_text()
    ensures tickets { ReadsItsTickets }
    ensures only_tickets { ReadsOnlyItsTickets }
    ensures pages { ReadsItsPages }
    ensures only_pages { ReadsOnlyItsPages }
    ensures runs { ReadsItsRuns }
    ensures only_runs { ReadsOnlyItsRuns }
{}
