//! The pages of an object, each absent, a zero page, or held by a frame, and lists of frames.
//! Used by itself in `up_container_tests`.
#![tactic(auto)]

mod frames;
pub mod laws;
mod list;
mod page;
mod runs;

pub use frames::Frames;
pub use list::PageList;
pub use page::Look;

/// Want of memory.
pub type Memory = std::alloc::AllocError;
