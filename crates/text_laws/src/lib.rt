//! Laws of the texts of pieces, of positions and of trees, for a reader.
#![tactic(auto)]

mod notation;
mod texts;
mod trees;

pub use notation::notation_laws;
pub use texts::{position_text_laws, sound_text_laws, tree_text_laws};
pub use trees::{deep_is_before_the_fault, flaw_excludes_win, one_offset, one_tree};
