//! What both texts of the pager are made of: lines, words, numbers, names, codes and byte lists, and the faults that a
//! reader names.
//! Used by itself in `up_text_tests`.
#![tactic(auto)]

mod codes;
mod fault;
mod laws;
mod names;
mod numbers;
mod runs;
mod words;

pub use codes::spelled_code;
pub use fault::{Fault, ReadFault, Stop, Why};
pub use laws::{byte_lists_are_runs, numbers_are_decimal, words_join_to_their_line};
pub use names::spells_name;
pub use numbers::{parse_number, read_between};
pub use runs::{ByteRun, ByteRuns, TOO_MANY, read_bytes, read_runs, spread_runs};
pub use words::{Words, front, parts, read_words};
