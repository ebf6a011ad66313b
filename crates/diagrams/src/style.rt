//! How units are written.

/// How the units of a diagram are written.
#[derive(Clone, Copy, PartialEq, Eq, Debug)]
pub enum Style {
    /// By the letters of a position's text.
    Letters,
    /// By the symbols of chess.
    Symbols,
}
