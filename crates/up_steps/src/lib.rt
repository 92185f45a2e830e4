//! What all entries of a script's objects are where its lines are done in order on one thread: they are decided by the lines, and doing what actors wish makes them so.
//! Used through `up_stage`, by `cases/step`; worked scripts are computed in its `proofs`.
#![tactic(auto)]

mod hands;
mod laws;

pub use hands::Hands;
pub use laws::{
    a_small_script_is_done_so, doing_wishes_makes_the_steps, each_actor_keeps_the_rules,
    other_entries_are_no_steps, the_steps_decide_the_entries, turns_and_syncs_are_decided,
    worked_scripts_have_their_steps,
};
