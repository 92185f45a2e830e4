//! The calls on an object that make pages zeros, and that set how many pages it has. Each appends its one entry, with the reply
//! that is due.
//! Used through `up_core`, by `judge_journals`: its calls on worked journals.
#![tactic(auto)]

mod blanking;
mod cutting;
mod growing;
mod resizing;
mod waking;
mod zeroing;

pub use resizing::resize;
pub use zeroing::zero;
