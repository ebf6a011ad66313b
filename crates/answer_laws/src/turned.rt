//! Laws of answers on boards that are turned about. The functions do nothing: their contracts are the laws.
ghost use Rattle.answer_laws.specs.Turned.{FewestTurn, NothingTurns, AnswersTurn, KeysTurn, FilesMirrorAnswers, SidesMirrorAnswers};

/// On a board that is turned about the fewest plies are the same, and the keys are the turned ones, each with its plies. The
/// first move of the answer may be another one, since the order of moves is not turned.
pub fn turned_answer_laws()
    ensures fewest { FewestTurn }
    ensures nothing { NothingTurns }
    ensures answers { AnswersTurn }
    ensures keys { KeysTurn }
{}

/// So they are with left and right exchanged; and with White and Black exchanged, and top and bottom.
pub fn mirrored_answer_laws()
    ensures files { FilesMirrorAnswers }
    ensures sides { SidesMirrorAnswers }
{}
