//! The frame bank: page frames that many threads claim and give back at once, each frame with one owner.
//! Used by itself in `up_container_tests`.
#![tactic(auto)]

mod bank;
mod frame;
mod kind;
pub mod laws;
mod page_bytes;
mod place;
mod rule;
mod view;

pub use bank::{Bank, BankSeat, Scan};
pub use frame::Frame;
pub use kind::FrameKind;

/// Want of memory.
pub type Memory = std::alloc::AllocError;
