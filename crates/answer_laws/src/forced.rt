//! Laws over the definitions alone.
ghost use Rattle.answer_laws.specs.Forced.{StaysForced, EvenEqualsOdd};

/// What is forced within some plies is forced within more, and an even number of plies forces what the odd number below it
/// does. The function does nothing: its contract is the laws.
pub fn forced_mate_laws()
    ensures more { StaysForced }
    ensures even { EvenEqualsOdd }
{}
