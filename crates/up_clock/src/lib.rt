//! The generation clock: a number that many threads read and age at once, which never falls.
//! Used by itself in `up_container_tests`.
#![tactic(auto)]

mod clock;
pub mod laws;
mod rule;
mod view;

pub use clock::{Clock, ClockSeat};

/// Want of memory.
pub type Memory = std::alloc::AllocError;
