//! What a search remembers of moves. Its order rests on it, and no answer.
ghost use Rattle.std.specs.Prelude.{◌<◌};

use moves::Move;

/// Which moves won, which replies refuted, and how many positions had their moves made.
#[derive(Drop)]
pub struct Memory {
    won: [u8; 1296],
    latest: Option<Move>,
    earlier: Option<Move>,
    pub(crate) expanded: u64,
}

/// The place of the move's two squares among those of all pairs.
pub(crate) fn pair_of(m: Move) -> usize
    ensures { result < 1296 }
{
    let from = usize::from(m.from.file) + 6 * usize::from(m.from.rank);
    let to = usize::from(m.to.file) + 6 * usize::from(m.to.rank);
    36 * from + to
}

impl Memory {
    ghost use Rattle.decision.specs.Memories.{IsBlank, Remembers};

    /// Nothing is remembered.
    pub fn new() -> Memory
        ensures { IsBlank result }
    {
        Memory {
            won: [0; 1296],
            latest: None,
            earlier: None,
            expanded: 0,
        }
    }

    /// So often each pair of squares has won, by plies, and no more is remembered.
    pub fn of(won: [u8; 1296]) -> Memory
        ensures { Remembers won result }
    {
        let (latest, earlier, expanded) = (None, None, 0);
        Memory {
            won,
            latest,
            earlier,
            expanded,
        }
    }

    /// One position more had its moves made.
    pub(crate) fn count(&mut self) {
        self.expanded = self.expanded.saturating_add(1);
    }

    /// How often the attacker's move won, by plies, against others.
    pub(crate) fn wins_of(&self, m: Move) -> u8 {
        self.won[pair_of(m)]
    }

    /// The attacker's move won within n plies. Of the defender's nothing is remembered here.
    pub(crate) fn remember(&mut self, m: Move, n: u8, own: bool) {
        if !own {
            return;
        }
        let pair = pair_of(m);
        if self.won[pair] > u8::MAX - n {
            self.fade();
        }
        self.won[pair] = self.won[pair].saturating_add(n);
    }

    /// What won long ago counts half.
    fn fade(&mut self) {
        for pair in 0..1296 {
            self.won[pair] /= 2;
        }
    }

    /// The reply refuted the attacker's last move but one.
    pub(crate) fn remember_reply(&mut self, m: Move) {
        if self.latest != Some(m) {
            self.earlier = self.latest;
            self.latest = Some(m);
        }
    }

    /// The two replies that refuted last, the latest first.
    pub(crate) fn replies(&self) -> [Option<Move>; 2] {
        [self.latest, self.earlier]
    }
}
