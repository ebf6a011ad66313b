//! A solver, and the handle that stops it.
ghost use Rattle.std.specs.Prelude.{◌≡◌, ◌↔◌, IfOk, IsErrOf};
ghost use Rattle.std.specs.Arc.{arc_value};
ghost use Rattle.slots.specs.Promise.{slots_of, IsSize};
ghost use Rattle.stops.specs.Promise.{requests};

use crate::listening::{Listener, Shared, StopSource};
use crate::place_word::PlaceWord;
use crate::solver::Solver;
use decision::{Memory, Scout};
use slots::{MakeFault, Slots};
use std::alloc::{AllocError, Global};
use std::sync::Arc;
use stops::Requests;

/// What listens, and what it listens to.
fn make_ends(alloc: Global) -> Result<(Listener, StopSource), AllocError>
    ensures shared { IfOk result (λ r. arc_value r.0.shared ≡ arc_value r.1.shared) }
    ensures none { IfOk result (λ r. (requests r.0.seat ≡ 0) × (requests r.1.seat ≡ 0)) }
{
    let (requests, asking, hearing) = Requests::make(alloc)?;
    let (place, _) = PlaceWord::make(alloc)?;
    let shared = Arc::new(alloc, Shared { requests, place })?;
    let again = Arc::try_clone(&shared)?;
    Ok((
        Listener {
            shared: again,
            seat: hearing,
        },
        StopSource {
            shared,
            seat: asking,
        },
    ))
}

impl Solver {
    /// A solver over so many slots, 1 to 1,048,576, and the handle that stops it. Nobody has asked it to stop.
    pub fn make(alloc: Global, slots: usize) -> Result<(Solver, StopSource), MakeFault>
        ensures slots { IfOk result (λ r. slots_of r.0.slots ≡ slots) }
        ensures shared { IfOk result (λ r. arc_value r.0.scout.stop.shared ≡ arc_value r.1.shared) }
        ensures none { IfOk result (λ r. (requests r.0.scout.stop.seat ≡ 0) × (requests r.1.seat ≡ 0)) }
        ensures size { IsErrOf result MakeFault.Size ↔ (¬ IsSize slots 1) }
    {
        let (slots, mut seats) = Slots::make(alloc, slots, 1)?;
        let Ok((stop, source)) = make_ends(alloc) else {
            return Err(MakeFault::NoMemory);
        };
        let seat = seats.take_last();
        let scout = Scout {
            stop,
            memory: Memory::new(),
        };
        Ok((Solver { slots, seat, scout }, source))
    }
}
