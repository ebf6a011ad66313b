//! What a line of a batch says and asks, and what is written for it: on a line or as JSON.
#![tactic(auto)]

mod asked;
mod asking;
mod fields;
mod forms;
mod objects;
mod said;

pub use asked::{Asked, Batch, Found};
pub use asking::{asked_in, limit_of};
pub use forms::found_text;
pub use objects::refused_object;
pub use said::{is_remark, said_in};
