//! What stands in JSON as a value.
ghost use Rattle.std.specs.Prelude.{◌∷◌, [], List, OnOk, string_bytes};
ghost use Rattle.json.specs.Token.{Token, boolean, string};
ghost use Rattle.json_data.specs.Data.{Appends, array_of, goal_data, key_object, move_data, number_data, value_or_null};

use crate::object::member;
use json::Writer;
use problems::Key;
use rules::{Goal, Move};
use std::alloc::{AllocError, Allocator};

/// What a write gives: it fails for want of memory alone, and may then have written a part.
pub type Outcome = Result<(), AllocError>;

/// What stands in JSON as a value. An implementation says which tokens it is, and the kit's writer how these are printed.
pub trait Datum {
    /// Its tokens.
    ghost tokens: { Self → List Token };

    /// Writes it, behind what stands there.
    fn write<A: Allocator + Copy>(&self, alloc: A, writer: &mut Writer<A>) -> Outcome
        ensures { OnOk result (Appends writer.old writer.new (tokens self.now)) };
}

/// A number in decimal.
impl Datum for u8 {
    ghost tokens = { number_data };

    fn write<A: Allocator + Copy>(&self, _: A, writer: &mut Writer<A>) -> Outcome {
        writer.u64(u64::from(*self))
    }
}

/// A number in decimal.
impl Datum for u32 {
    ghost tokens = { number_data };

    fn write<A: Allocator + Copy>(&self, _: A, writer: &mut Writer<A>) -> Outcome {
        writer.u64(u64::from(*self))
    }
}

impl Datum for bool {
    ghost tokens = { λ b. boolean b ∷ [] };

    fn write<A: Allocator + Copy>(&self, _: A, writer: &mut Writer<A>) -> Outcome {
        writer.boolean(*self)
    }
}

/// A text, with what must be escaped in it escaped.
impl Datum for &str {
    ghost tokens = { λ text. string text.now ∷ [] };

    fn write<A: Allocator + Copy>(&self, _: A, writer: &mut Writer<A>) -> Outcome {
        writer.string(*self)
    }
}

/// A text of its own.
impl<B: Allocator> Datum for String<B> {
    ghost tokens = { λ text. string (string_bytes text) ∷ [] };

    fn write<A: Allocator + Copy>(&self, _: A, writer: &mut Writer<A>) -> Outcome {
        writer.string(self.as_str())
    }
}

/// A move by its squares.
impl Datum for Move {
    ghost tokens = { move_data };

    fn write<A: Allocator + Copy>(&self, alloc: A, writer: &mut Writer<A>) -> Outcome {
        let name = format!(in alloc; "{self}")?;
        writer.string(name.as_str())
    }
}

/// The goal's word.
impl Datum for Goal {
    ghost tokens = { goal_data };

    fn write<A: Allocator + Copy>(&self, _: A, writer: &mut Writer<A>) -> Outcome {
        match self {
            Goal::Mate => writer.string("mate"),
            Goal::MateOrStale => writer.string("stale"),
        }
    }
}

/// Values in an array.
impl<T: Datum, B: Allocator> Datum for Vec<T, B> {
    ghost tokens = { λ list. array_of T.tokens list.items };

    fn write<A: Allocator + Copy>(&self, alloc: A, writer: &mut Writer<A>) -> Outcome {
        writer.begin_array()?;
        for item in self.as_slice() {
            item.write(alloc, writer)?;
        }
        writer.end_array()
    }
}

/// A value, or null.
impl<T: Datum> Datum for Option<T> {
    ghost tokens = { value_or_null T.tokens };

    fn write<A: Allocator + Copy>(&self, alloc: A, writer: &mut Writer<A>) -> Outcome {
        match self {
            Some(value) => value.write(alloc, writer),
            None => writer.null(),
        }
    }
}

/// A key and the plies that it takes.
impl Datum for Key {
    ghost tokens = { key_object };

    fn write<A: Allocator + Copy>(&self, alloc: A, writer: &mut Writer<A>) -> Outcome {
        writer.begin_object()?;
        member(alloc, writer, "first", &self.first)?;
        member(alloc, writer, "plies", &self.plies)?;
        writer.end_object()
    }
}
