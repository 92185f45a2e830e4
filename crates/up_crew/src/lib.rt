//! Jobs, crews that do them, and the gate before each line: what a run of many actors stands on.
//! Not used yet; threads are to do scripts by it.
#![tactic(auto)]

mod crew;
mod gate;
mod job;

pub use crew::{Crew, SerialCrew, ThreadCrew};
pub use gate::{Gate, OpenGate};
pub use job::Job;
