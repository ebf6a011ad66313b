//! The table of slots: how it is made, told of, and given up.
ghost use Rattle.std.specs.Prelude.{◌≡◌, ℕ, ◌+◌, ◌*◌, ◌^◌, ◌<◌, ◌≤◌, List, All, IfOk, IsErrOf, ◌↔◌, vec_len};
ghost use Rattle.slots.specs.declared.calls.Call.{Call};
ghost use Rattle.atomic_table.specs.Seated.{TableId};
ghost use Rattle.slots.specs.Rule.{dealer, longer};
ghost use Rattle.slots.specs.Promise.{way_of, slots_of, number, known, all_seen, all_mine, steps, IsSize, KnowsHistory, AddsToOne, InOneOrder, GivenUp, IsSeatOf, AllNew};

use crate::fault::MakeFault;
use crate::lore::Lore;
use crate::plays::Deal;
use crate::rule::Slotted;
use crate::views::View;
use atomic_table::Table;
use std::alloc::{AllocError, Allocator, Global};
use std::marker::Model;

/// A caller's right to probe and store. It has no bytes.
pub type Seat = atomic_table::Seat<u8, View>;

/// The most slots of a table.
pub const MOST_SLOTS: usize = 1 << 20;

/// The most callers of a table.
pub const MOST_CALLERS: usize = 17;

/// Slots of three words that any number of threads read and store into, without locks.
#[derive(Drop)]
pub struct Slots<L: Lore, A: Allocator = Global> {
    pub(crate) table: Table<u8, View, usize, Slotted<L>, A>,
    count: usize,
}

impl<L: Lore, A: Allocator> Model for Slots<L, A> {
    ghost Value = { TableId };

    ghost view = { λ s. s.table.shared.table_id };

    ghost invariant = { λ s. (s.table.shared.table_id.words ≡ 4 * s.count) × (s.table.shared.key ≡ s.count) × (0 < s.count) × (s.count < 2 ^ 32) × (s.table.shared.table_id.slots ≡ 0) };
}

impl<L: Lore> Slots<L> {
    /// All slots vacant, and a seat for each caller.
    pub fn make(
        alloc: Global,
        slots: usize,
        callers: usize,
    ) -> Result<(Slots<L>, Vec<Seat>), MakeFault>
        ensures ok { IfOk result (λ r. (slots_of r.0 ≡ slots) × (vec_len r.1 ≡ callers) × AllNew r.0 r.1.items) }
        ensures seats { IfOk result (λ r. All (IsSeatOf r.0) r.1.items) }
        ensures size { IsErrOf result MakeFault.Size ↔ (¬ IsSize slots callers) }
        ensures limits { (MOST_SLOTS ≡ 1048576) × (MOST_CALLERS ≡ 17) }
    {
        Slots::make_in(alloc, slots, callers)
    }
}

impl<L: Lore, A: Allocator> Slots<L, A> {
    /// `make`, by any allocator.
    pub fn make_in(
        alloc: A,
        slots: usize,
        callers: usize,
    ) -> Result<(Slots<L, A>, Vec<Seat, A>), MakeFault>
    where
        A: Copy,
        ensures ok { IfOk result (λ r. (slots_of r.0 ≡ slots) × (vec_len r.1 ≡ callers) × AllNew r.0 r.1.items) }
        ensures seats { IfOk result (λ r. All (IsSeatOf r.0) r.1.items) }
        ensures size { IsErrOf result MakeFault.Size ↔ (¬ IsSize slots callers) }
        ensures limits { (MOST_SLOTS ≡ 1048576) × (MOST_CALLERS ≡ 17) }
    {
        if slots < 1 || slots > MOST_SLOTS || callers < 1 || callers > MOST_CALLERS {
            return Err(MakeFault::Size);
        }
        let Ok((table, first)) = Slots::open(alloc, slots) else {
            return Err(MakeFault::NoMemory);
        };
        let Ok(seats) = table.deal(alloc, first, callers) else {
            return Err(MakeFault::NoMemory);
        };
        Ok((table, seats))
    }

    /// The number of slots.
    pub fn len(&self) -> usize
        ensures value { result ≡ slots_of self.now }
        ensures some { 0 < result }
    {
        self.count
    }

    /// The first seat then has seen what either had seen, and the second is spent. No call is added
    /// to the history. One word is read, for what the rule says of it to that seat.
    pub fn tell(&self, seat: &mut Seat, other: Seat)
        requires seat { IsSeatOf self.now seat.old }
        requires other { IsSeatOf self.now other }
        ensures seat { IsSeatOf self.now seat.new × (seat.new.id ≡ seat.old.id) × (number seat.new ≡ number seat.old) }
        ensures told { all_seen seat.new ≡ longer (all_seen seat.old) (all_seen other) }
        ensures mine { (all_mine seat.new ≡ all_mine seat.old)
            × ((slot : ℕ) → known slot seat.new ≡ known slot seat.old) }
        ensures history { KnowsHistory (way_of L.key L.prefers) seat.new }
        ensures steps { steps seat.new ≡ steps seat.old + 2 }
    {
        self.join(seat, other);
        self.confirm(seat);
    }

    /// Gives the table up, and answers the four words of a slot: its gate, and its entry. They met
    /// the rule at the end, with all that the seat knows.
    pub fn close(self, seat: Seat, slot: usize) -> [u64; 4]
        requires seat { IsSeatOf self seat }
        requires slot { slot < slots_of self }
        ensures rule { GivenUp (way_of L.key L.prefers) L.meets self seat slot result }
        ensures order { InOneOrder (way_of L.key L.prefers) L.meets (slots_of self) }
        ensures law { (history : List Call) (c : Call) → AddsToOne history c }
    {
        let Slots { table, count: _ } = self;
        let closed = table.close_with(seat);
        let gate = closed.word(4 * slot);
        let first = closed.word(4 * slot + 1);
        let second = closed.word(4 * slot + 2);
        let third = closed.word(4 * slot + 3);
        closed.free();
        [gate, first, second, third]
    }

    // The table, and the seat that deals the others.
    fn open(alloc: A, slots: usize) -> Result<(Slots<L, A>, Seat), AllocError>
    where
        A: Copy,
        requires { (0 < slots) × (slots < 2 ^ 32) }
        ensures { IfOk result (λ r. (slots_of r.0 ≡ slots) × (r.1.table_id ≡ r.0) × (r.1.me.0 ≡ dealer slots)) }
    {
        let words = vec![in alloc; 0u64; 4 * slots]?;
        let (table, seat) = Table::of_words(alloc, words.as_slice(), &slots)?;
        Ok((
            Slots {
                table,
                count: slots,
            },
            seat,
        ))
    }

    // So many seats.
    fn deal<B: Allocator>(
        &self,
        alloc: B,
        mut first: Seat,
        callers: usize,
    ) -> Result<Vec<Seat, B>, AllocError>
        requires { (first.table_id ≡ self.now) × (first.me.0 ≡ dealer (slots_of self.now)) }
        ensures { IfOk result (λ v. (vec_len v ≡ callers) × AllNew self.now v.items × All (IsSeatOf self.now) v.items) }
    {
        let mut seats = Vec::with_capacity(alloc, callers)?;
        for _ in 0..callers {
            seats.push(self.table.shared.split_seat::<Deal>(&mut first))?;
        }
        Ok(seats)
    }
}
