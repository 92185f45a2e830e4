//! What an object's entries so far tell of it and of one page: its size, its actors, its bytes and marks, pins, uses, and what
//! the accesses that wait ask for. Each looks back over the entries, oldest first.
//! Used through `up_journal`, by `judge_journals`: each judgement by looking back.
#![tactic(auto)]

mod asking;
mod attempts;
mod deeds;
mod facts;
mod pinning;
mod roles;
mod sizes;
mod uses;

pub use asking::{Ask, asked, is_blocked, is_waiting, resolved, resolves, wanted, wanted_by};
pub use attempts::{attempt, began_as, blocks, parked};
pub use facts::{bytes_from, has_page, is_dirty, is_plain, is_settled, is_unclean};
pub use pinning::{always, loaned, pins};
pub use roles::{detached, in_role};
pub use sizes::{accepts, size};
pub use uses::{age_class, cold_since, last_use, newest_epoch};
