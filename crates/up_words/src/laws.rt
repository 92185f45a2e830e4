//! What the definitions of reading say, apart from how a text is read.

ghost use Rattle.up_words.specs.Laws.{ReadsDecimal, ReadsOnlyDecimal, JoinsWords, ReadsBytesText, ReadsOnlyBytesText};

/// A number is read from its decimal text, and from no other.
pub fn numbers_are_decimal()
    ensures back { ReadsDecimal }
    ensures only { ReadsOnlyDecimal }
{}

/// The words of a line give the line back.
pub fn words_join_to_their_line()
    ensures { JoinsWords }
{}
/// Bytes are read from the text of their runs, and from no other.
pub fn byte_lists_are_runs()
    ensures back { ReadsBytesText }
    ensures only { ReadsOnlyBytesText }
{}
