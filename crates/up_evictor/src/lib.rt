//! Winning frames back: how short memory is, and the passes over the objects that make pages absent.
//! Used by itself in `up_container_tests`.
#![tactic(auto)]

mod herd;
mod levels;
mod passes;

pub use herd::{Herd, Reclaim};
pub use levels::{Level, Levels};
pub use passes::{Relief, relieve};
