//! The core of an object: one step, which does the call that a value names, and lists of requests, done in order.
//! Used by itself in `judge_journals`, on all worked journals.
#![tactic(auto)]

mod gathering;
pub mod laws;
mod listing;
mod needing;
mod owed;
mod requests;
mod stepping;

pub use listing::run_list;
pub use needing::needs;
pub use owed::Owed;
pub use requests::{Replies, Request, Requests};
pub use stepping::step;
