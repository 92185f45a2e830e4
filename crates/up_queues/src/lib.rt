//! The queues of an object: the pages that may be reclaimed, in the order in which they go.
//! Used by itself in `up_container_tests`.
#![tactic(auto)]

pub mod laws;
mod lists;
mod queued;
mod queues;
mod seats;

pub use queued::Queued;
pub use queues::Queues;
