//! The gate of the program's searches.
ghost use Rattle.std.specs.Prelude.{◌≡◌};
ghost use Rattle.atomic_table.specs.Seated.{TableId};
ghost use Rattle.searcher.specs.Gates.{KeepsOn};

use entry::MateLore;
use progress::{Ended, Watch};
use searcher::Gate;
use slots::{Seat, Slots};

/// The gate that tells a watch what has ended, where there is one, and leaves each seat as it is.
#[derive(Drop)]
pub struct Watched<'a> {
    pub watch: Option<&'a Watch>,
}

impl Gate for Watched<'_> {
    ghost use Rattle.std.specs.Prelude.{◌≡◌};

    ghost keeps = { λ _ before after. after ≡ before };

    fn begin(&self, _round: u8, _job: u16, _slots: &Slots<MateLore>, _seat: &mut Seat) {}

    fn end(&self, round: u8, ended: Ended) {
        if let Some(watch) = self.watch {
            watch.end(round, ended);
        }
    }
}

/// In the calls of that gate each seat goes on. The function does nothing: its contract is the law.
pub fn watched_keeps_on()
    ensures { (table : TableId) → KeepsOn ⟦<Watched<'static> as Gate>⟧.keeps table }
{}
