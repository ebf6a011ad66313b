//! Laws of answers and keys. The functions do nothing: their contracts are the laws.
ghost use Rattle.answer_laws.specs.Answers.{OneAnswer, OneListOfKeys, AnswerOfKeys, FirstMoveIsKey};

/// A question has one answer, and one list of keys.
pub fn one_answer_laws()
    ensures answer { OneAnswer }
    ensures keys { OneListOfKeys }
{}

/// The answer is the first of the keys that take the fewest plies, or where there is no key, that nothing is forced.
pub fn answers_of_keys()
    ensures answer { AnswerOfKeys }
    ensures first { FirstMoveIsKey }
{}
