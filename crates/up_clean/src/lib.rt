//! The calls of writeback on an object: which pages await it, leave to make pages dirty, its beginning and its end, and whether
//! the object was changed. Each appends its one entry, with the reply that is due.
//! Used through `up_core`, by `judge_journals`: its calls on worked journals.
#![tactic(auto)]

mod beginning;
mod dirtying;
mod ending;
mod querying;
mod reporting;

pub use beginning::begin;
pub use dirtying::dirty;
pub use ending::end;
pub use querying::query;
pub use reporting::stats;
