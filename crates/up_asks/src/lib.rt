//! What is asked of a pager: the pages asked for, the packets sent, and the tickets of those who wait.
//! Used by itself in `up_container_tests`.
#![tactic(auto)]

mod asks;
mod event;
pub mod laws;
mod pages;
mod sending;
mod ticket;
mod waiting;

pub use asks::Asks;
pub use event::Event;
pub use ticket::{Ticket, Waiter};
