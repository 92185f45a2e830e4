//! Sets of pages as runs: the set type, and what is said of pages and runs of a range.
//! Used by itself in `up_container_tests`.
#![tactic(auto)]

mod gaps;
pub mod laws;
mod run;
mod runs;
mod search;
mod spans;
mod stretch;

pub use run::{KindRun, Run};
pub use runs::Runs;
pub use spans::Spans;

/// Want of memory: the one answer that every call which allocates may give.
pub type Memory = std::alloc::AllocError;
