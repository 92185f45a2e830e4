//! Actors as state machines: what an actor of a script wishes to be done next, after each answer that it heard.
//! Used through `up_stage`, by `cases/step`.
#![tactic(auto)]

mod actor;
mod copies;
mod course;
mod laws;
mod line_calls;
mod paging;
mod player;
mod task;
mod wish;
mod wishing;

pub use actor::Actor;
pub use course::{Aim, Doing};
pub use laws::{
    a_call_brings_what_was_gathered, a_course_is_told_by_its_entries, a_course_keeps_the_rules,
    a_refused_access_ends, a_settled_call_is_not_asked_again, a_ticket_is_retried,
    a_wish_makes_the_call_under_way, frames_are_gathered_for_a_need, no_object_is_left_twice,
};
pub use paging::{Paging, SiteLine};
pub use player::Player;
pub use task::Task;
pub use wish::{Heard, Wanted, Wish};
