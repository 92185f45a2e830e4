//! What the definition of a script's text says, apart from how a text is read.

ghost use Rattle.up_script.specs.Laws.{ReadsItsAction, ReadsOnlyItsAction, ReadsItsText, ReadsItsOwnText, NamesFirst, NamesLength};

/// A script that keeps the limits is read from its text.
pub fn a_script_is_read_from_its_text()
    ensures { ReadsItsText }
{}

/// What was read from any text is the script of its own text.
pub fn what_was_read_is_read_from_its_text()
    ensures { ReadsItsOwnText }
{}

/// An action that keeps the limits is read from its words, and from no others.
pub fn an_action_is_read_from_its_words()
    ensures back { ReadsItsAction }
    ensures only { ReadsOnlyItsAction }
{}

/// The fault of a text is that of its first faulty line.
pub fn the_first_fault_is_named()
    ensures first { NamesFirst }
    ensures length { NamesLength }
{}
