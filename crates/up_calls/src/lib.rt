//! The calls of a journal text, both ways: one row of words for each call, which is read back as the same.
//! Used through `up_text`, by `cases/judge` and `judge_journals`.
#![tactic(auto)]

mod calls;
mod frames;
mod kinds;
pub mod laws;
mod put_calls;

pub use calls::{SpelledCall, fill_call, find_call, read_call};
pub use kinds::CallKind;
pub use put_calls::put_call;
