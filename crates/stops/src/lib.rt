//! A word by which one caller asks another to stop, or to go on again. It knows nothing of searches.
#![tactic(auto)]

mod laws;
mod requests;
mod rule;
mod views;

pub use laws::requests_are_made;
pub use requests::{RequestSeat, Requests};
pub use rule::Counted;
pub use views::RequestView;
