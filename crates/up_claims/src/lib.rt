//! The steps of the sample pager, and what they answer.
//! Used through `up_worker` and `up_site`; its steps are computed on worked journals in `proofs/Rows*`.
#![tactic(auto)]

mod chosen;
mod claim;
mod claims;
pub mod laws;
mod step;

pub use chosen::Chosen;
pub use claim::Claim;
pub use claims::Claims;
pub use step::{ClaimNo, SiteReply, SiteStep};
