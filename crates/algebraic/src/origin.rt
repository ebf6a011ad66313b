//! How a name tells where the unit comes from.
use rules::Square;
use std::fmt;

/// What a name tells of the square that the unit leaves.
#[derive(Clone, Copy)]
pub(crate) enum Origin {
    Nothing,
    File,
    Rank,
    Both,
}

/// What is told of a square.
#[derive(Clone, Copy)]
pub(crate) struct Departure {
    pub(crate) origin: Origin,
    pub(crate) square: Square,
}

impl fmt::Display for Departure {
    ghost use Rattle.std.specs.Prelude.{Some};
    ghost use Rattle.algebraic.specs.Text.{origin_text};

    ghost output = { λ told. Some (origin_text told.origin told.square) };

    fn fmt<W: fmt::Write>(&self, f: &mut fmt::Formatter<W>) -> fmt::Result {
        let square = self.square;
        match self.origin {
            Origin::Nothing => Ok(()),
            Origin::File => write!(f, "{}", (b'a' + square.file) as char),
            Origin::Rank => write!(f, "{}", (b'1' + square.rank) as char),
            Origin::Both => write!(f, "{square}"),
        }
    }
}
