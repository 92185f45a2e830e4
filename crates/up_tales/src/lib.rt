//! What one actor does beside others, told by its lines, its own entries alone and the journals at the end: laws alone, no code.
//! Nothing stands on it yet.
#![tactic(auto)]

mod laws;

pub use laws::a_life_is_a_tale;
