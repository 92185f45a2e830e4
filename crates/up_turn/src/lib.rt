//! The turn: a lock whose word counts the entries of the value behind it, so that threads may look at the count while
//! one of them has the value. Each thread has a pass, which remembers the list of entries that it has seen, and its own.
//! Used by itself in `up_container_tests`.
#![tactic(auto)]

mod chronicle;
pub mod laws;
mod pass;
pub mod plain_journal;
mod rule;
mod steps;
mod turn;
mod view;

pub use chronicle::Chronicle;
pub use pass::{Held, Pass};
pub use turn::Turn;
