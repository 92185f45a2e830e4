//! What each call answers after a journal: the definitions of `up_model` as a plain program over the entries alone. The
//! journal's types are passed on.
//! Used by itself in `judge_journals`, on all worked journals.
#![tactic(auto)]

mod slow;

pub use slow::{is_proper, reply_slow};
pub use up_model::{
    Birth, Brought, Call, Entries, Entry, HintKind, Log, Reply, Role, Told, causes, laws, positions,
};
