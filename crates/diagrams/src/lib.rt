//! Diagrams of positions: as text, and as pictures that stand alone.
#![tactic(auto)]

mod caption;
mod diagram;
mod drawing;
mod place;
mod shapes;
mod square;
mod style;
mod svg;

pub use diagram::Diagram;
pub use drawing::board_drawn;
pub use style::Style;
pub use svg::{captioned_svg, svg_of};
