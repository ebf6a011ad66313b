//! The job that a sign names.
ghost use Rattle.std.specs.Prelude.{IfNone, IfSome, ℕ};
ghost use Rattle.progress.specs.Place.{MayBeNamed, StandsFirst};

/// What stands for a job that is known to win, in place of the plies within which a job is known not to.
pub const WINS: u8 = 255;

/// The first job that wins, or isn't known to lose within so many plies.
pub fn first_named(known: &[u8], plies: u8) -> Option<usize>
    ensures some { IfSome result (StandsFirst known.now plies) }
    ensures none { IfNone result ((k : ℕ) → MayBeNamed known.now plies k → ⊥) }
{
    for job in 0..known.len() {
        if known[job] < plies || known[job] == WINS {
            return Some(job);
        }
    }
    None
}
