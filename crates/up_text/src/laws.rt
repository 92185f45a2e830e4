//! What reading and writing say of one another. Each law is a function with an empty body, whose clauses are the law.
ghost use Rattle.up_text.specs.Laws.{NoTextBeginsAnother, ReadsItsText, ReadsOnlyItsText, ReadsWithinLimits};

/// The text of journals within the limits is read as these journals, and no other text is. What is read is within them.
pub fn texts_are_read_as_their_journals()
    ensures back { ReadsItsText }
    ensures only { ReadsOnlyItsText }
    ensures within { ReadsWithinLimits }
{}

/// No text of a list of journals begins another's, and lists of journals whose texts are the same are the same.
pub fn no_text_begins_another()
    ensures { NoTextBeginsAnother }
{}
