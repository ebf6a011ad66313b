//! The devices that are read and written, whose failures are counted: all of an input, and all of an output. Nothing of chess is known here.
#![tactic(auto)]

mod device;
mod transfer;

pub use device::{Counted, Failed, Sink, Source};
pub use transfer::{InputFault, read_all, without_line_feed, write_all};
