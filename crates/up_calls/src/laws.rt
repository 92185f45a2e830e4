//! What reading and writing say of one another. Each law is a function with an empty body, whose clauses are the law.
ghost use Rattle.up_calls.specs.Laws.{ReadsAllowed, ReadsItsForm, ReadsItsWords, ReadsOnlyItsWords};

/// The words of an allowed call of the journal's form are read as the call, and no others are. What is read is allowed
/// and of that form.
pub fn calls_have_one_row_of_words()
    ensures back { ReadsItsWords }
    ensures only { ReadsOnlyItsWords }
    ensures within { ReadsAllowed }
    ensures formed { ReadsItsForm }
{}
