//! The first line of a certificate, which is its answer.
ghost use Rattle.std.specs.Prelude.{◌≡◌, ◌≢◌, ◌<◌, ◌≤◌, ◌++◌, ◌∷◌, ℕ, List, IfSome, MatchOption};
ghost use Rattle.std.specs.Fmt.{decimal};
ghost use Rattle.rules.specs.MoveText.{move_text};
ghost use Rattle.rules.specs.Moves.{IsPly};
ghost use Rattle.certificates.specs.Answers.{IsOdd};
ghost use Rattle.verifying.specs.FirstLine.{goal_text, first_line, IsInRange, HasNamedMove};
ghost use Rattle.problems.specs.declared.answer.Answer.{Answer as PlainAnswer};
ghost use Rattle.rules.specs.Squares.{Ply};

use moves::{Goal, Move, read_move};
use problems::{Answer, MOST_LIMIT};

/// What stands behind the number in the text.
fn behind_number(text: &[u8], number: u8) -> Option<&[u8]>
    requires { number ≤ 63 }
    ensures { MatchOption result ((rest : List ℕ) → text.now ≢ decimal number ++ rest)
        (λ rest. text.now ≡ decimal number ++ rest.now) }
{
    if number < 10 {
        return text.strip_prefix(&[b'0' + number]);
    }
    text.strip_prefix(&[b'0' + number / 10, b'0' + number % 10])
}

/// The number from 1 to 63 that the digits write.
fn number_of(digits: &[u8]) -> Option<u8>
    ensures { MatchOption result ((n : ℕ) → 0 < n → n ≤ 63 → decimal n ≢ digits.now)
        (λ number. (0 < number) × (number ≤ 63) × (decimal number ≡ digits.now)) }
{
    for number in 1..MOST_LIMIT + 1 {
        let Some(rest) = behind_number(digits, number) else {
            continue;
        };
        if rest.is_empty() {
            return Some(number);
        }
    }
    None
}

/// The first move of a mate in these plies: they are odd, and it stands behind them and a space.
fn mate_in(text: &[u8], plies: u8) -> Option<Move>
    requires { plies ≤ 63 }
    ensures { MatchOption result ((m : Ply) → IsOdd plies → IsPly m → text.now ≢ decimal plies ++ 32 ∷ move_text m)
        (λ m. IsOdd plies × IsPly m × (text.now ≡ decimal plies ++ 32 ∷ move_text m)) }
{
    if plies % 2 == 0 {
        return None;
    }
    let rest = behind_number(text, plies)?;
    let name = rest.strip_prefix(b" ")?;
    let first = read_move(name)?;
    Some(first)
}

/// The plies and the first move of a mate.
fn mate_of(text: &[u8]) -> Option<(u8, Move)>
    ensures plies { IfSome result (λ mate. IsOdd mate.0 × (mate.0 ≤ 63)) }
    ensures text { MatchOption result
        ((n : ℕ) (m : Ply) → IsOdd n → n ≤ 63 → IsPly m → text.now ≢ decimal n ++ 32 ∷ move_text m)
        (λ mate. text.now ≡ decimal mate.0 ++ 32 ∷ move_text mate.1) }
    ensures named { IfSome result (λ mate. IsPly mate.1) }
{
    for plies in 1..MOST_LIMIT + 1 {
        if let Some(first) = mate_in(text, plies) {
            return Some((plies, first));
        }
    }
    None
}

/// What stands before the plies of a mate.
fn word_of(goal: Goal) -> &'static [u8]
    ensures { result.now ≡ goal_text goal }
{
    match goal {
        Goal::Mate => b"mate ",
        Goal::MateOrStale => b"goal ",
    }
}

/// The answer that the line tells.
pub(crate) fn answer_of(line: &[u8], goal: Goal) -> Option<Answer>
    ensures range { IfSome result IsInRange }
    ensures text { MatchOption result
        ((answer : PlainAnswer) → IsInRange answer → HasNamedMove answer → line.now ≢ first_line goal answer)
        (λ answer. line.now ≡ first_line goal answer) }
    ensures named { IfSome result HasNamedMove }
{
    if let Some(digits) = line.strip_prefix(b"none within ") {
        let limit = number_of(digits)?;
        return Some(Answer::NoneWithin(limit));
    }
    let mate = line.strip_prefix(word_of(goal))?;
    let (plies, first) = mate_of(mate)?;
    Some(Answer::Mate { plies, first })
}
