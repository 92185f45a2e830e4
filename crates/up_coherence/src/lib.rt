//! What the sample pager keeps true of an object and its disk: definitions, and laws over every journal.
//! Used through `up_site`; its laws are computed on worked journals in `proofs/WorkedRuns`.
#![tactic(auto)]

pub mod histories;
pub mod laws;
pub mod promises;
