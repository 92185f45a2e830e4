//! Hands: they carry out what actors wish, on objects, two banks of frames and a clock, on one thread.
//! Used by `pagerd`, by `cases/step`.
#![tactic(auto)]

mod hands;
mod machine;
mod relieving;

pub use hands::Hands;
