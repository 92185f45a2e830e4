//! The replies of a journal text, both ways: one row of words for each reply, which is read back as the same.
//! Used by itself in `judge_journals` and `pagerd`.
#![tactic(auto)]

mod kinds;
pub mod laws;
mod put_replies;
mod replies;

pub use kinds::ReplyKind;
pub use put_replies::put_reply;
pub use replies::{SpelledReply, fill_reply, find_reply, fits_list, read_reply};
