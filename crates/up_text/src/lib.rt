//! The journal text both ways: one text for each list of journals, read back as the same journals.
//! Used by itself in `up_text_tests`.
#![tactic(auto)]

mod births;
mod entries;
mod journals;
pub mod laws;
mod reading;
mod section;
mod versioned;
mod writing;

pub use journals::Named;
pub use reading::read_journals;
pub use versioned::Journals;
pub use writing::write_journals;
