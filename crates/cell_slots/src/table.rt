//! A table of slots, and the seats of its callers.
ghost use Rattle.std.specs.Prelude.{◌≡◌, ℕ, ◌<◌, ◌≢◌, ◌↔◌, length, map, All, IfOk, MatchResult};
ghost use Rattle.slots.specs.declared.calls.Act.TheVariants.{Asked, Offered};
ghost use Rattle.slots.specs.Steps.{HitFits};
ghost use Rattle.cell_slots.specs.Table.{Calls, IsToldOf, IsNewSeat, IsPlainSize, told_part};
ghost use Rattle.cell_slots.specs.Cell.{token_table, token_part, tokens_part, IsSeated};

use crate::cell;
use crate::rule::{Cell, Token};
use slots::{Lore, MakeFault, Probe, Store};
use std::alloc::{AllocError, Global};
use std::marker::Model;
use std::sync::Wait;

/// CellSlots that threads share. To a contract it is a name and a number of slots.
#[derive(Drop)]
pub struct CellSlots<L: Lore> {
    cells: Vec<Cell<L>>,
}

impl<L: Lore> Model for CellSlots<L> {
    ghost use Rattle.std.specs.Prelude.{map, length};
    ghost use Rattle.cell_slots.specs.Table.{Slotted};

    ghost Value = { Slotted };

    ghost view = { λ s. record { table = map (λ c. c.table.shared.table_id) s.cells.items; len = length s.cells.items } };
}

/// A caller of a table. To a contract it is the table's name and, for each slot, what the caller has seen and its own calls.
#[derive(Drop)]
pub struct CellSeat {
    tokens: Vec<Token>,
}

impl Model for CellSeat {
    ghost use Rattle.std.specs.Prelude.{map, All};
    ghost use Rattle.cell_slots.specs.Table.{Seated};
    ghost use Rattle.cell_slots.specs.Cell.{token_table, token_part, IsSeated};

    ghost Value = { Seated };

    ghost view = { λ s. record { table = map token_table s.tokens.items; parts = map token_part s.tokens.items } };

    ghost invariant = { λ s. All IsSeated s.tokens.items };
}

/// The most slots of a table.
pub const MOST_SLOTS: usize = 64;

/// The most callers of a table.
pub const MOST_CALLERS: usize = 17;

fn cells<L: Lore>(alloc: Global, count: usize) -> Result<Vec<Cell<L>>, AllocError>
    ensures { IfOk result (λ v. length v.items ≡ count) }
{
    let mut cells = Vec::with_capacity(alloc, count)?;
    for _slot in 0..count {
        let (cell, _) = Cell::<L>::ruled(alloc, [0, 0, 0])?;
        cells.push(cell)?;
    }
    Ok(cells)
}

impl<L: Lore> CellSlots<L> {
    /// A table whose slots are all vacant, and a seat for each caller.
    pub fn make(
        alloc: Global,
        slots: usize,
        callers: usize,
    ) -> Result<(CellSlots<L>, Vec<CellSeat>), MakeFault>
        ensures table { IfOk result (λ r. r.0.len ≡ slots) }
        ensures seats { IfOk result (λ r. (length r.1.items ≡ callers) × All (IsNewSeat r.0) r.1.items) }
        ensures size { MatchResult result (λ _. IsPlainSize slots callers)
            (λ e. (e ≡ MakeFault.Size) ↔ (¬ IsPlainSize slots callers)) }
        ensures limits { (MOST_SLOTS ≡ 64) × (MOST_CALLERS ≡ 17) }
    {
        if slots < 1 || slots > MOST_SLOTS || callers < 1 || callers > MOST_CALLERS {
            return Err(MakeFault::Size);
        }
        match CellSlots::seated(alloc, slots, callers) {
            Ok(made) => Ok(made),
            Err(_) => Err(MakeFault::NoMemory),
        }
    }

    fn seated(
        alloc: Global,
        slots: usize,
        callers: usize,
    ) -> Result<(CellSlots<L>, Vec<CellSeat>), AllocError>
        ensures { IfOk result (λ r. (r.0.len ≡ slots) × (length r.1.items ≡ callers) × All (IsNewSeat r.0) r.1.items) }
    {
        let cells = cells(alloc, slots)?;
        let table = CellSlots { cells };
        let mut seats = Vec::with_capacity(alloc, callers)?;
        for _caller in 0..callers {
            seats.push(table.seat(alloc)?)?;
        }
        Ok((table, seats))
    }

    fn seat(&self, alloc: Global) -> Result<CellSeat, AllocError>
        ensures { IfOk result (IsNewSeat self.now) }
    {
        let mut tokens = Vec::with_capacity(alloc, self.len())?;
        for cell in &self.cells {
            tokens.push(cell.pass())?;
        }
        Ok(CellSeat { tokens })
    }

    /// The number of slots.
    pub fn len(&self) -> usize
        ensures { result ≡ self.now.len }
    {
        self.cells.len()
    }

    /// Whether an entry with the key stands in the slot: one read of its cell. It is never Busy.
    pub fn probe<R: Wait>(&self, rt: &R, seat: &mut CellSeat, slot: usize, key: [u64; 3]) -> Probe
        requires slot { slot < self.now.len }
        requires seat { seat.old.table ≡ self.now.table }
        ensures seat { seat.new.table ≡ seat.old.table }
        ensures call { Calls L.key slot (Asked key result) seat.old seat.new }
        ensures hit { HitFits L.key L.meets (Asked key result) }
        ensures quiet { result ≢ Probe.Busy }
    {
        let cell = &self.cells[slot];
        let token = &mut seat.tokens[slot];
        cell::probe::<L, R>(rt, cell, token, slot, key)
    }

    /// Puts the words into the slot: one exchange of its cell. It is always Stored.
    pub fn store<R: Wait>(&self, rt: &R, seat: &mut CellSeat, slot: usize, words: [u64; 3]) -> Store
        requires slot { slot < self.now.len }
        requires seat { seat.old.table ≡ self.now.table }
        requires lore { L.meets words }
        ensures seat { seat.new.table ≡ seat.old.table }
        ensures call { Calls L.key slot (Offered words result) seat.old seat.new }
        ensures done { result ≡ Store.Stored }
    {
        let cell = &self.cells[slot];
        let token = &mut seat.tokens[slot];
        cell::put::<L, R>(rt, cell, token, slot, words);
        Store::Stored
    }

    /// Lets the first seat's caller see what either has seen. The other seat is spent.
    pub fn tell<R: Wait>(&self, _rt: &R, seat: &mut CellSeat, other: CellSeat)
        requires seat { seat.old.table ≡ self.now.table }
        requires other { other.table ≡ self.now.table }
        ensures seat { seat.new.table ≡ seat.old.table }
        ensures told { IsToldOf seat.old other seat.new }
    {
        let CellSeat { tokens: mut others } = other;
        tell_all(&self.cells, &mut seat.tokens, &mut others);
    }
}

fn tell_all<L: Lore>(cells: &Vec<Cell<L>>, tokens: &mut Vec<Token>, others: &mut Vec<Token>)
    requires tokens { (map token_table tokens.old.items ≡ map (λ c. c.table.shared.table_id) cells.now.items)
        × All IsSeated tokens.old.items }
    requires others { (map token_table others.old.items ≡ map (λ c. c.table.shared.table_id) cells.now.items)
        × All IsSeated others.old.items }
    ensures tokens { (map token_table tokens.new.items ≡ map token_table tokens.old.items)
        × All IsSeated tokens.new.items }
    ensures told { (i : ℕ) → tokens_part tokens.new.items i
        ≡ told_part (tokens_part tokens.old.items i) (tokens_part others.old.items i) }
{
    for i in 0..cells.len() {
        let cell = &cells[i];
        let token = &mut tokens[i];
        let other = &mut others[i];
        cell::tell::<L>(cell, token, other);
    }
}
