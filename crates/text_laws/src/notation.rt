//! Laws over the definitions alone.
ghost use Rattle.text_laws.specs.Notation.{HasOneReading};

/// A piece string has at most one accepted reading. The function does nothing: its contract is the law.
pub fn notation_laws()
    ensures one_reading { HasOneReading }
{}
