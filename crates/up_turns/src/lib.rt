//! Laws alone: a worker's turns and a user's sync are the steps of their programs, and each task goes with
//! the claim.
//! Nothing stands on it yet.
#![tactic(auto)]

pub mod laws;
