//! What stands for a piece in a name.
ghost use Rattle.std.specs.Prelude.{◌≡◌};
ghost use Rattle.algebraic.specs.Text.{kind_text, promoted_text};

use board::Kind;

/// What stands for a piece: the English letters, or the symbols of chess, which are White's for both sides.
#[derive(Clone, Copy, PartialEq, Eq, Debug)]
pub enum Symbols {
    Letters,
    Figurines,
}

fn letter(kind: Kind) -> &'static str
    ensures { result.now ≡ kind_text Symbols.Letters kind }
{
    match kind {
        Kind::King => "K",
        Kind::Queen => "Q",
        Kind::Rook => "R",
        Kind::Bishop => "B",
        Kind::Knight => "N",
        Kind::Pawn => "",
    }
}

fn figurine(kind: Kind) -> &'static str
    ensures { result.now ≡ kind_text Symbols.Figurines kind }
{
    match kind {
        Kind::King => "\u{2654}",
        Kind::Queen => "\u{2655}",
        Kind::Rook => "\u{2656}",
        Kind::Bishop => "\u{2657}",
        Kind::Knight => "\u{2658}",
        Kind::Pawn => "",
    }
}

impl Symbols {
    pub(crate) fn kind_text(self, kind: Kind) -> &'static str
        ensures { result.now ≡ kind_text self kind }
    {
        match self {
            Symbols::Letters => letter(kind),
            Symbols::Figurines => figurine(kind),
        }
    }
}
