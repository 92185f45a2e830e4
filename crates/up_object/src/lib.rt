//! One memory object, whole: its pages over frames of two banks, pins, hints, queues, asks, roles, and the journal that all of it
//! stands for. Calls stand in crates above; they are written over `changing::Changing`, which changes one part at a time.
//! Used through `up_core`, by `judge_journals`: all calls on worked journals.
#![tactic(auto)]

mod banks;
mod begins;
pub mod changing;
mod closing;
pub mod evicting;
mod frame_moves;
mod leaving;
mod marks;
mod numbers;
mod object;
pub mod order;
mod page_reads;
mod range_reads;
mod roles;
mod seating;
mod sizing;
mod step;
mod tally;
mod waiter_changes;
mod waiter_reads;

pub use banks::Banks;
pub use leaving::open_leaving;
pub use marks::{Key, Mark};
pub use numbers::{Begin, Numbers};
pub use object::Object;
pub use range_reads::{count_of, end_of, first_of, has_end};
pub use sizing::open_growing;
pub use step::{By, Declined, FramesIn, Step, Stepped, decline, lacking, note_with};
pub use tally::Tally;
