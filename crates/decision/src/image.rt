//! A question's image: the same of the position turned about, and the key by which the table is asked of it.
ghost use Rattle.std.specs.Prelude.{◌≡◌};
ghost use Rattle.board.specs.Board.{IsPosition};
ghost use Rattle.decision.specs.Questions.{key_for};
ghost use Rattle.decision.specs.Turned.{HaveOneAnswer};

use crate::turning::{least, turned};
use entry::{Interval, key_of, pack_board};
use problems::Question;

/// Nothing is known.
pub(crate) const NOTHING: Interval = Interval {
    below: 0,
    upto: None,
};

/// The question's image: the same of the position turned about, so that the kings stand on the least squares.
pub(crate) fn image(q: Question) -> Question
    ensures { HaveOneAnswer q result }
{
    let turning = least(&q.position, q.attacker);
    if turning.is_none() {
        return q;
    }
    let Some(position) = turned(&q.position, turning) else {
        return q;
    };
    Question { position, ..q }
}

/// The key by which the table is asked.
pub(crate) fn table_key(q: &Question) -> [u64; 3]
    ensures value { result ≡ key_for q.now }
    ensures position { IsPosition q.now.position }
{
    key_of(pack_board(&q.position, q.attacker, q.goal, NOTHING))
}
