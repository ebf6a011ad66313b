//! The word, how it is made with its two seats, counted up and read.
ghost use Rattle.std.specs.Prelude.{◌≡◌, ◌⊎◌, ◌+◌, ◌≤◌, ◌↔◌, IfOk, IsTrue, true, false};
ghost use Rattle.stops.specs.Promise.{IsSeatIn, IsAsker, requests, asks, WantsStop, after_stop, after_go_on};

use crate::rule::{Ask, Counted, Deal, Hear};
use crate::views::RequestView;
use atomic_table::Table;
use std::alloc::{AllocError, Global};
use std::marker::Model;

/// A caller's right to make requests, or to hear of them. It has no bytes.
pub type RequestSeat = atomic_table::Seat<(), RequestView>;

/// How many requests were made: an odd number asks for a stop, an even one to go on.
#[derive(Drop)]
pub struct Requests {
    table: Table<(), RequestView, u64, Counted, Global>,
}

impl Model for Requests {
    ghost use Rattle.std.specs.Prelude.{◌≡◌};
    ghost use Rattle.atomic_table.specs.Seated.{TableId};

    ghost Value = { TableId };

    ghost view = { λ r. r.table.shared.table_id };

    ghost invariant = { λ r. (r.table.shared.table_id.words ≡ 1) × (r.table.shared.table_id.slots ≡ 0) };
}

impl Requests {
    /// No request yet; the seat that makes them, and one that hears of them.
    pub fn make(alloc: Global) -> Result<(Requests, RequestSeat, RequestSeat), AllocError>
        ensures asker { IfOk result (λ r. IsAsker r.0 r.1) }
        ensures listener { IfOk result (λ r. IsSeatIn r.0 r.2 × (asks r.2 ≡ false)) }
        ensures none { IfOk result (λ r. (requests r.1 ≡ 0) × (requests r.2 ≡ 0)) }
    {
        let (requests, mut first) = Requests::open(alloc)?;
        let second = requests.deal(&mut first);
        Ok((requests, first, second))
    }

    /// Asks for a stop, until `go_on`.
    pub fn stop(&self, seat: &mut RequestSeat)
        requires seat { IsAsker self.now seat.old }
        ensures seat { IsAsker self.now seat.new }
        ensures stop { WantsStop seat.new }
        ensures one { requests seat.new ≡ after_stop (requests seat.old) }
    {
        let count = self.count(seat);
        if count % 2 == 0 {
            self.ask(seat, count + 1);
        }
    }

    /// Asks to go on. The last of 2^64 - 1 requests stays one for a stop.
    pub fn go_on(&self, seat: &mut RequestSeat)
        requires seat { IsAsker self.now seat.old }
        ensures seat { IsAsker self.now seat.new }
        ensures on { (WantsStop seat.new → ⊥) ⊎ (requests seat.new ≡ 18446744073709551615) }
        ensures one { requests seat.new ≡ after_go_on (requests seat.old) }
    {
        let count = self.count(seat);
        if count % 2 == 1 && count < u64::MAX {
            self.ask(seat, count + 1);
        }
    }

    /// Whether the last request is one for a stop. One atomic step.
    pub fn is_stopped(&self, seat: &mut RequestSeat) -> bool
        requires seat { IsSeatIn self.now seat.old }
        ensures seat { IsSeatIn self.now seat.new }
        ensures asks { asks seat.new ≡ asks seat.old }
        ensures stop { IsTrue result ↔ WantsStop seat.new }
        ensures grows { requests seat.old ≤ requests seat.new }
        ensures own { asks seat.old ≡ true → requests seat.new ≡ requests seat.old }
    {
        self.count(seat) % 2 == 1
    }

    // The word, and the seat that asks.
    fn open(alloc: Global) -> Result<(Requests, RequestSeat), AllocError>
        ensures { IfOk result (λ r. IsAsker r.0 r.1 × (requests r.1 ≡ 0)) }
    {
        let (table, seat) = Table::of_words(alloc, &[0], &0)?;
        Ok((Requests { table }, seat))
    }

    // A seat that hears.
    fn deal(&self, first: &mut RequestSeat) -> RequestSeat
        requires { IsAsker self.now first.old }
        ensures first { IsAsker self.now first.new × (requests first.new ≡ requests first.old) }
        ensures second { IsSeatIn self.now result × (asks result ≡ false) × (requests result ≡ requests first.old) }
    {
        self.table.shared.split_seat::<Deal>(first)
    }

    // How many requests were made.
    fn count(&self, seat: &mut RequestSeat) -> u64
        requires { IsSeatIn self.now seat.old }
        ensures seat { IsSeatIn self.now seat.new }
        ensures known { requests seat.new ≡ result }
        ensures asks { asks seat.new ≡ asks seat.old }
        ensures grows { requests seat.old ≤ result }
        ensures own { asks seat.old ≡ true → requests seat.old ≡ result }
    {
        self.table.shared.load::<Hear>(seat, 0)
    }

    // Makes the request of this number.
    fn ask(&self, seat: &mut RequestSeat, number: u64)
        requires seat { IsAsker self.now seat.old }
        requires next { number ≡ requests seat.old + 1 }
        ensures seat { IsAsker self.now seat.new }
        ensures made { requests seat.new ≡ number }
    {
        self.table.shared.store::<Ask>(seat, 0, number)
    }
}
