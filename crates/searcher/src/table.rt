//! The table of a search, with the seats of those who search.
ghost use Rattle.std.specs.Prelude.{◌≡◌, ◌+◌, IfOk, IfErr, None, Some, length};
ghost use Rattle.slots.specs.Promise.{slots_of, AllNew};
ghost use Rattle.searcher.specs.Limits.{table_fault, IsRefusedBy};
ghost use Rattle.searcher.specs.Tables.{AreCallers};

use crate::fault::SolveFault;
use entry::MateLore;
use slots::{MOST_SLOTS, Seat, Slots};
use std::alloc::{Allocator, Global};

/// A table, with a seat there for each of the 1 to 17 threads that search over it, one of them the caller's own.
#[derive(Drop)]
pub struct Table<A: Allocator = Global> {
    pub slots: Slots<MateLore, A>,
    pub seats: Vec<Seat, A>,
    ghost seated: { AreCallers slots seats.items },
}

impl<A: Allocator> Table<A> {
    ghost use Rattle.slots.specs.Promise.{IsSeatOf};

    /// The slots, with one seat there.
    pub fn into_alone(self) -> (Slots<MateLore, A>, Seat)
        ensures { IsSeatOf result.0 result.1 }
    {
        let Table { slots, mut seats } = self;
        let seat = seats.take_last();
        (slots, seat)
    }
}

/// The most workers of a solve, the caller's own thread not counted.
pub const MOST_WORKERS: u8 = 16;

/// The first of these numbers that is outside what a table takes, if one is.
fn test_table(workers: u8, slots: usize) -> Result<(), SolveFault>
    ensures accepted { IfOk result (λ _. table_fault workers slots ≡ None) }
    ensures refused { IfErr result (λ fault. table_fault workers slots ≡ Some fault) }
{
    if workers < 1 || MOST_WORKERS < workers {
        return Err(SolveFault::Workers);
    }
    if slots < 1 || MOST_SLOTS < slots {
        return Err(SolveFault::Slots);
    }
    Ok(())
}

/// A table of so many slots, with a seat for each worker and one for the caller's own thread.
pub fn make_table<A: Allocator + Copy>(
    alloc: A,
    workers: u8,
    slots: usize,
) -> Result<Table<A>, SolveFault>
    ensures accepted { IfOk result (λ _. table_fault workers slots ≡ None) }
    ensures slots { IfOk result (λ table. slots_of table.slots ≡ slots) }
    ensures seats { IfOk result (λ table. length table.seats.items ≡ workers + 1) }
    ensures new { IfOk result (λ table. AllNew table.slots table.seats.items) }
    ensures refused { IfErr result (IsRefusedBy (table_fault workers slots)) }
{
    test_table(workers, slots)?;
    match Slots::make_in(alloc, slots, usize::from(workers) + 1) {
        Ok((slots, seats)) => Ok(Table { slots, seats }),
        Err(_) => Err(SolveFault::NoMemory),
    }
}
