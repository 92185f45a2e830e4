//! The calls on an object that reclaim its pages, and that say which are to be reclaimed: hints, pins, loans and evictions.
//! Used through `up_core`, by `judge_journals`: its calls on worked journals.
#![tactic(auto)]

mod borrowing;
mod evicting;
mod hinting;
mod loans;
mod pinning;
mod unpinning;
mod vacating;

pub use borrowing::borrow;
pub use evicting::evict;
pub use hinting::hint;
pub use pinning::pin;
pub use unpinning::unpin;
pub use vacating::vacate;
