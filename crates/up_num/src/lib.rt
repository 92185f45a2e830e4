//! The plain types that every crate of the pager shares: page numbers and ranges, refusals, packets,
//! outcomes, and the list type.
//! Used by itself in `up_container_tests` and `up_disk_trials`.
#![tactic(auto)]

mod answers;
mod items;
mod pages;
mod pieces;

pub use answers::{AskKind, Code, Outcome, Packet, PageState, Refusal};
pub use items::{Bytes, Items, PageSeq, RangeSeq, Woken};
pub use pages::{DirtyRange, PageNo, PageRange, Piece};
pub use pieces::{Pieces, pieces_join, pieces_of};

/// Want of memory: the one answer that every call which allocates may give.
pub type Memory = std::alloc::AllocError;
