//! A job board: `make` alone requests memory.
ghost use Rattle.std.specs.Prelude.{◌≡◌};

use jobs::{Least, MakeFault, Wins};
use std::alloc::Global;

/// One job that wins.
#[derive(Drop)]
struct Only(u16);

impl Wins for Only {
    ghost wins = { λ only job. job ≡ only.0 };
}

/// A job board is made alone.
pub(crate) fn make(alloc: Global) -> &'static str {
    match Least::make(alloc, &Only(3), 6, 2) {
        Ok(_) => "made",
        Err(MakeFault::Size) => "size",
        Err(MakeFault::NoMemory) => "no memory",
    }
}

/// A job board is made, a job is lowered, and another seat asks.
pub(crate) fn answer(alloc: Global) -> &'static str {
    let (least, mut seats) = match Least::make(alloc, &Only(3), 6, 2) {
        Ok(made) => made,
        Err(MakeFault::Size) => return "size",
        Err(MakeFault::NoMemory) => return "no memory",
    };
    let (Some(mut two), Some(mut one)) = (seats.pop(), seats.pop()) else {
        return "no seat";
    };
    least.lower(&mut one, 3);
    let above = least.is_below(&mut two, 5);
    let below = least.is_below(&mut two, 3);
    if above && !below && least.finish(two) == 3 {
        "made"
    } else {
        "wrong"
    }
}
