//! The script that a program does: its types, and the reader of its text.
//! Used by itself in `up_text_tests`.
#![tactic(auto)]

mod actions;
mod actors;
mod declarations;
mod fields;
mod laws;
mod objects;
mod played;
mod reading;
mod script;
mod verbs;
mod versions;

pub use laws::{
    a_script_is_read_from_its_text, an_action_is_read_from_its_words, the_first_fault_is_named,
    what_was_read_is_read_from_its_text,
};
pub use reading::read_script;
pub use script::{
    Action, ActorLine, ActorLines, Kind, Line, Lines, Numbers, ObjectLine, ObjectLines, Script,
};
pub use up_words::{ReadFault, Why};
