//! What a solver shares with the handle that stops it: the requests, and how far a search is.
ghost use Rattle.std.specs.Arc.{arc_value};
ghost use Rattle.stops.specs.Promise.{IsSeatIn, IsAsker, WantsStop, requests, after_stop, after_go_on};
ghost use Rattle.solver.specs.Placing.{IsPlace};

use crate::place_word::PlaceWord;
use decision::Stop;
use std::alloc::Global;
use std::sync::Arc;
use stops::{RequestSeat, Requests};

/// What both share.
#[derive(Drop)]
pub struct Shared {
    pub requests: Requests,
    pub(crate) place: PlaceWord,
}

/// How far a search is: nothing is forced within so many plies, and of so many moves of the round so many are tried.
#[derive(Clone, Copy, PartialEq, Eq, Debug)]
#[repr(C)]
pub struct Place {
    pub none_within: u32,
    pub tried: u32,
    pub moves: u32,
}

/// Listens, for a search, whether it is told to stop.
#[derive(Drop)]
pub struct Listener {
    pub shared: Arc<Shared, Global>,
    pub seat: RequestSeat,
    ghost belongs: { IsSeatIn (arc_value shared).requests seat },
}

impl Stop for Listener {
    ghost use Rattle.std.specs.Prelude.{◌≡◌, ◌≤◌, ◌↔◌, IsTrue};
    ghost use Rattle.std.proofs.Common.{◌∙◌, refl, rules};
    ghost use Rattle.std.specs.Arc.{arc_value};
    ghost use Rattle.stops.specs.Promise.{WantsStop, requests};

    ghost told = { λ l. WantsStop l.seat };

    ghost stays = { λ a b. (arc_value b.shared ≡ arc_value a.shared) × (requests a.seat ≤ requests b.seat) };

    fn is_set(&mut self) -> bool
        ensures told { IsTrue result ↔ WantsStop self.new.seat }
        ensures stays { (arc_value self.new.shared ≡ arc_value self.old.shared)
            × (requests self.old.seat ≤ requests self.new.seat) }
    {
        self.shared.requests.is_stopped(&mut self.seat)
    }

    fn begin(&self, none_within: u8, moves: u16) {
        let _ = self.shared.place.begin(none_within, moves);
    }

    fn step(&self) {
        let _ = self.shared.place.step();
    }

    ghost stays_at_once = { λ _. (refl, Prim.search rules) };

    ghost stays_on = { λ _ _ _ p q. (q.0 ∙ p.0, Prim.search rules) };
}

/// Stops the searches of one solver, from any thread, and is asked how far they are.
#[derive(Drop)]
pub struct StopSource {
    pub shared: Arc<Shared, Global>,
    pub seat: RequestSeat,
    ghost asks: { IsAsker (arc_value shared).requests seat },
}

impl StopSource {
    ghost use Rattle.std.specs.Prelude.{◌≡◌, ◌⊎◌};

    /// The search that is under way, and each that is begun, is to stop, until `go_on`.
    pub fn stop(&mut self)
        ensures stop { WantsStop self.new.seat }
        ensures one { requests self.new.seat ≡ after_stop (requests self.old.seat) }
        ensures same { arc_value self.new.shared ≡ arc_value self.old.shared }
    {
        self.shared.requests.stop(&mut self.seat);
    }

    /// Searches that are begun from now on aren't to stop. After 2^64 - 1 requests a stop stays one.
    pub fn go_on(&mut self)
        ensures on { (WantsStop self.new.seat → ⊥) ⊎ (requests self.new.seat ≡ 18446744073709551615) }
        ensures one { requests self.new.seat ≡ after_go_on (requests self.old.seat) }
        ensures same { arc_value self.new.shared ≡ arc_value self.old.shared }
    {
        self.shared.requests.go_on(&mut self.seat);
    }

    /// How far the search is that is under way, or how far the last one was.
    pub fn place(&self) -> Place
        ensures { IsPlace result }
    {
        self.shared.place.look().0
    }
}
