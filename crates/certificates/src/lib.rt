//! Certificates of answers: what their claims mean, and laws of them for a reader.
#![tactic(auto)]

mod claim;
mod consequences;

pub use claim::Claim;
pub use consequences::{certificate_laws, claim_laws};
