//! The site of an object: the sample pager's steps over an object with an image, its disk, and the stage of
//! each claim.
//! Nothing stands on it yet.
#![tactic(auto)]

mod answering;
mod calls;
mod claimed;
mod fitting;
mod hosting;
mod imaged;
mod joining;
mod looking;
mod parts;
mod picking;
mod resizing;
mod site;
mod stage;
mod standing;
mod stepping;
mod steps;
mod tours;

pub use answering::SiteStepped;
pub use site::Site;
