//! Banks of frames as one thread holds them: a bank with its only seat, and a bank of each kind.
//! Used through `up_hands`.
#![tactic(auto)]

mod pool;
mod sole;

pub use pool::Pool;
pub use sole::SoleBank;
