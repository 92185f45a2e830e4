ghost use Rattle.std.specs.Prelude.{◌≡◌};
ghost use Rattle.pagerd.specs.Outputs.{status_with};

/// What the program has to tell; each has its text.
#[derive(Clone, Copy, PartialEq, Eq, Debug)]
pub enum Output {
    /// The journals of a script.
    Journals,
    /// The first fault of a script's text.
    ScriptFault,
    /// The first line of a script that isn't built.
    Unbuilt,
    /// That journals are legal.
    Legal,
    /// The first entry at fault of journals.
    Illegal,
    /// The first fault of journals' text.
    JournalsFault,
    /// What a generated script's journal has.
    Summary,
    /// That the words ask for nothing.
    Words,
}

/// What there is to tell, with its text.
#[derive(Drop)]
pub struct Answer {
    pub output: Output,
    pub text: Vec<u8>,
}

/// Why there is nothing to tell.
pub enum Stop {
    Source,
    Memory,
}

/// The status of an output that was written.
pub fn status_of(output: Output) -> u8
    ensures { result ≡ status_with output }
{
    match output {
        Output::Journals | Output::Legal | Output::Summary => 0,
        Output::Illegal => 1,
        Output::Words => 2,
        Output::ScriptFault | Output::Unbuilt | Output::JournalsFault => 3,
    }
}
