//! The outlines that a picture is made of: units in a square of 100 by 100, signs in one of 30.
ghost use Rattle.std.specs.Prelude.{◌≡◌};
ghost use Rattle.diagrams.specs.Shapes.{outline, detail, file_sign, rank_sign};

use board::Kind;

/// The outline of a unit, but for what it stands on.
pub(crate) fn outline(kind: Kind) -> &'static str
    ensures { result.now ≡ outline kind }
{
    match kind {
        Kind::King =>
            "M46 8h8v7h8v8h-8v9q6 1 8 7 20-9 23 8 1 12-14 28H29Q14 59 15 47q3-17 23-8 2-6 8-7v-9h-8v-8h8z",
        Kind::Queen =>
            "M18 28a6 6 0 1 1 5 0l13 18-1-24a6 6 0 1 1 6 0l9 22 9-22a6 6 0 1 1 6 0l-1 24 13-18a6 6 0 1 1 5 0l-10 47H28z",
        Kind::Rook => "M27 18h11v8h7v-8h10v8h7v-8h11v20l-8 7 3 26H32l3-26-8-7z",
        Kind::Bishop =>
            "M50 10a6 6 0 0 1 4 10q17 11 17 27 0 8-7 14l3 14H33l3-14q-7-6-7-14 0-16 17-27a6 6 0 0 1 4-10z",
        Kind::Knight =>
            "M38 15l8 7q26 3 29 34 1 10-3 19H33q0-14 12-24-8 3-13 9-5 4-10 0-4-4 0-10 10-12 11-22 1-8 5-13z",
        Kind::Pawn =>
            "M50 20a13 13 0 0 1 8 23q8 3 8 7H57q1 14 11 25H32q10-11 11-25H34q0-4 8-7a13 13 0 0 1 8-23z",
    }
}

/// What is drawn inside.
pub(crate) fn detail(kind: Kind) -> &'static str
    ensures { result.now ≡ detail kind }
{
    match kind {
        Kind::King => "M50 34v32M31 66h38",
        Kind::Queen => "M30 66h40",
        Kind::Rook => "M36 45h28M33 70h34",
        Kind::Bishop => "M50 30v16M42 38h16M36 62h28",
        Kind::Knight => "M44 34v.01M36 68q2-10 14-20",
        Kind::Pawn => "M38 70h24",
    }
}

/// The sign of a file: a to f.
pub(crate) fn file_sign(file: u8) -> &'static str
    ensures { result.now ≡ file_sign file }
{
    match file {
        0 => "M21 11v17M21 20q0 8-6 8t-6-8 6-8 6 8",
        1 => "M9 2v26M9 20q0-8 6-8t6 8-6 8-6-8",
        2 => "M21 15q-2-3-6-3-7 0-7 8t7 8q4 0 6-3",
        3 => "M21 2v26M21 20q0-8-6-8t-6 8 6 8 6-8",
        4 => "M8 20h14q0-8-7-8t-7 8 7 8q4 0 6-3",
        _ => "M20 3q-7-3-7 5v20M8 13h10",
    }
}

/// The sign of a rank: 1 to 6.
pub(crate) fn rank_sign(rank: u8) -> &'static str
    ensures { result.now ≡ rank_sign rank }
{
    match rank {
        0 => "M9 8l7-6v26",
        1 => "M8 8q0-6 7-6t7 6q0 6-14 20h14",
        2 => "M9 3h12l-7 10q8 0 8 7 0 8-7 8-6 0-7-5",
        3 => "M18 28V2L8 19h14",
        4 => "M21 3H10L9 13q3-2 6-2 7 0 7 8 0 9-7 9-6 0-7-5",
        _ => "M20 3Q9 8 9 19q0 9 6 9 7 0 7-8 0-7-7-7-5 0-6 6",
    }
}
