//! Laws over all journals on frames: what a call brings, and what earlier ones brought. Each is a function with an empty body,
//! whose clauses are the law.
ghost use Rattle.up_core.specs.Enough.{RepliesAskOnlyForEnough, EnoughSuffices, ProperWithoutFrames, BytesWithoutFrames};

/// A reply depends on what its call brings only by whether that is a scan, and whether it is as many frames as the call needs; and not on
/// what earlier calls brought.
pub fn replies_ask_only_for_enough()
    ensures once { RepliesAskOnlyForEnough }
    ensures enough { EnoughSuffices }
{}

/// Which calls are proper, and what the bytes are, doesn't depend on what earlier calls brought.
pub fn frames_leave_no_trace()
    ensures proper { ProperWithoutFrames }
    ensures bytes { BytesWithoutFrames }
{}
