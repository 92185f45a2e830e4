//! What reading and writing say of one another. Each law is a function with an empty body, whose clauses are the law.
ghost use Rattle.up_replies.specs.Laws.{ReadsAllowed, ReadsItsWords, ReadsKnown, ReadsOnlyItsWords};

/// The words of an allowed reply that the text can have are read as the reply, and no others are. What is read is allowed
/// and such a reply.
pub fn replies_have_one_row_of_words()
    ensures back { ReadsItsWords }
    ensures only { ReadsOnlyItsWords }
    ensures within { ReadsAllowed }
    ensures known { ReadsKnown }
{}
