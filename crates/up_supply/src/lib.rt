//! What pagers and actors do besides accesses: supplies and fails of pages, packets, detachment, leaves, and told facts.
//! Used through `up_core`, by `judge_journals`: its calls on worked journals.
#![tactic(auto)]

mod detaching;
mod failing;
mod leaving;
mod supplying;
mod taking;
mod telling;

pub use detaching::detach;
pub use failing::fail;
pub use leaving::leave;
pub use supplying::supply;
pub use taking::packet;
pub use telling::tell;
