//! Laws over the rule of a bank's table, which holds at each moment between two steps of its threads, and over the
//! returns of frames. Each is a function with an empty body, whose clause is the law.
ghost use Rattle.up_bank.specs.Laws.{HomeOrOut, FramesDiffer, OneHistory, LastReturnCounts};

/// Each frame is at home with the bytes of its last return, or out as one `Frame`, or in the hands of one call.
pub fn home_or_out()
    ensures { HomeOrOut }
{}

/// Two frames that are out at once have different numbers.
pub fn frames_differ()
    ensures { FramesDiffer }
{}

/// All seats of a bank know first parts of one history of returns.
pub fn one_history()
    ensures { OneHistory }
{}

/// A frame's bytes are those of its last return.
pub fn last_return_counts()
    ensures { LastReturnCounts }
{}
