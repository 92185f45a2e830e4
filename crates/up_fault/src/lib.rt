//! Accesses to an object: reads and writes of bytes in one page, and retries of those that waited.
//! Used through `up_core`, by `judge_journals`: its calls on worked journals.
#![tactic(auto)]

mod access;
mod deciding;
mod reading;
mod retrying;
mod touching;
mod wanting;
mod writing;

pub use touching::{retry, touch};
