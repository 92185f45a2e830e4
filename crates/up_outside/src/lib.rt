//! The outside of the pager: where bytes come from and where they go, each with a count of its failures, and
//! implementations in memory and over std's readers and writers.
//! Used by itself in `up_text_tests`.
#![tactic(auto)]

mod in_memory;
mod plan;
mod sink;
mod source;
mod stream;

pub use in_memory::{MemSink, MemSource, PlainSource};
pub use plan::Plan;
pub use sink::{Sink, push_all};
pub use source::{ReadStop, Source, read_to};
pub use stream::{ReaderSource, WriterSink};

/// What an outside answers when it could not do a call.
#[derive(Clone, Copy, PartialEq, Eq, Debug)]
pub struct Failed;
