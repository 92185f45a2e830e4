//! Judges journals: whether each entry has the reply that the definitions give after the entries before it, and where one
//! hasn't, which is the first.
//! Used by itself in `judge_journals` and `pagerd`.
#![tactic(auto)]

mod banks;
mod bringing;
mod judging;
mod looking;
mod replay;
mod sizes;
mod verdict;

pub use banks::ReplayBanks;
pub use judging::{check, check_slow};
pub use replay::{kind_of, may_call};
pub use sizes::{Sizes, is_fair};
pub use verdict::Verdict;
