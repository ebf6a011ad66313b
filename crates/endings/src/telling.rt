//! A refusal that is written, and told with a sentence.
ghost use Rattle.std.specs.Prelude.{◌≡◌, ◌⊎◌, ◌<◌};
ghost use Rattle.endings.specs.Run.{ending_of, MayTell, Refuses};

use crate::ending::{has_no_answer, refuse};
use command_line::NamedMove;
use devices::Sink;
use refusals::{Asking, Refusal, Refused, advise, advise_move};
use std::io::{self, Write};

/// Writes why there is no answer, and tells it with a sentence.
pub fn refuse_and_tell<R: AllocGlobal, K: Sink, E: Write>(
    rt: &R,
    writer: &mut K,
    errors: &mut E,
    refused: &Refused<'_>,
) -> u8
    requires { K.failures writer.old < u64.MAX }
    ensures refuses { Refuses (ending_of K.contents K.failures writer.old writer.new result) refused.now.refusal }
    ensures silent { MayTell result ⊎ (errors.new ≡ errors.old) }
{
    let status = refuse(rt.alloc(), writer, errors, refused.refusal);
    if has_no_answer(status) {
        let _ = advise(errors, refused);
    }
    status
}

/// Tells why there is no reply to a move that is named.
fn tell_move<E: Write>(errors: &mut E, played: &NamedMove<'_>, refusal: Refusal) -> io::Result<()> {
    match refusal {
        Refusal::Move => advise_move(errors, played.fen, played.name),
        _ => {
            let refused = Refused {
                refusal,
                fen: played.fen,
                asking: Asking::Plain,
            };
            advise(errors, &refused)
        }
    }
}

/// Writes why there is no reply to a move that is named, and tells it with a sentence.
pub fn refuse_move<R: AllocGlobal, K: Sink, E: Write>(
    rt: &R,
    writer: &mut K,
    errors: &mut E,
    played: &NamedMove<'_>,
    refusal: Refusal,
) -> u8
    requires { K.failures writer.old < u64.MAX }
    ensures refuses { Refuses (ending_of K.contents K.failures writer.old writer.new result) refusal }
    ensures silent { MayTell result ⊎ (errors.new ≡ errors.old) }
{
    let status = refuse(rt.alloc(), writer, errors, refusal);
    if has_no_answer(status) {
        let _ = tell_move(errors, played, refusal);
    }
    status
}
