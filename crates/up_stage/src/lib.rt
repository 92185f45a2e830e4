//! A script, played on one thread: each actor with the queue of its lines, and the script that is made of a seed.
//! Used by itself in `pagerd`, by `cases/`.
#![tactic(auto)]

mod actors;
mod making;
mod playing;
mod scheduler;
mod summing;

pub use actors::births_of;
pub use making::generate;
pub use playing::play;
pub use summing::{Summary, sum_up};
