//! The journal of an object: the entries that its calls leave, the log that keeps them, and (in `specs/`)
//! the definitions that say what each call answers after a journal.
//! Used by itself in `up_container_tests`.
#![tactic(auto)]

mod bringing;
pub mod causes;
mod entry;
pub mod laws;
mod log;
pub mod meanings;
pub mod numbers;
pub mod ordering;
pub mod positions;
pub mod standing;
pub mod survival;

pub use entry::{Birth, Brought, Call, Entries, Entry, HintKind, Reply, Role, Told};
pub use log::Log;
