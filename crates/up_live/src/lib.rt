//! A site behind a turn: threads share it, each with a pass of its own.
//! Nothing stands on it yet.
#![tactic(auto)]

mod calls;
pub mod laws;
mod live;
mod origin;
mod picked;
mod sync;
mod wakes;

pub use live::Live;
pub use origin::{SharedSite, SiteOrigin};
pub use picked::SyncEnd;
