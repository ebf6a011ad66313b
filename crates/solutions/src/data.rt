//! What is told of a solution as values of JSON.
ghost use Rattle.solutions.specs.Data.{key_data, threats_data, try_data, variation_data};

use crate::first_try::Try;
use crate::key_play::KeyPlay;
use crate::threats::Threats;
use crate::variation::Variation;
use json::Writer;
use json_data::{Datum, Outcome, member};
use std::alloc::Allocator;

/// What a key threatens.
impl<B: Allocator> Datum for Threats<B> {
    ghost tokens = { threats_data };

    fn write<A: Allocator + Copy>(&self, alloc: A, writer: &mut Writer<A>) -> Outcome {
        match self {
            Threats::End => writer.string("end"),
            Threats::Check => writer.string("check"),
            Threats::Zugzwang => writer.string("zugzwang"),
            Threats::Moves { plies, moves } => {
                writer.begin_object()?;
                member(alloc, writer, "plies", plies)?;
                member(alloc, writer, "moves", moves)?;
                writer.end_object()
            }
        }
    }
}

/// A reply and what is behind it.
impl<B: Allocator> Datum for Variation<B> {
    ghost tokens = { variation_data };

    fn write<A: Allocator + Copy>(&self, alloc: A, writer: &mut Writer<A>) -> Outcome {
        writer.begin_object()?;
        member(alloc, writer, "reply", &self.reply)?;
        member(alloc, writer, "plies", &self.plies)?;
        member(alloc, writer, "moves", &self.moves)?;
        member(alloc, writer, "line", &self.line)?;
        writer.end_object()
    }
}

/// A key, what it threatens and its variations.
impl<B: Allocator> Datum for KeyPlay<B> {
    ghost tokens = { key_data };

    fn write<A: Allocator + Copy>(&self, alloc: A, writer: &mut Writer<A>) -> Outcome {
        writer.begin_object()?;
        member(alloc, writer, "first", &self.first)?;
        member(alloc, writer, "threats", &self.threats)?;
        member(alloc, writer, "variations", &self.variations)?;
        writer.end_object()
    }
}

/// A try and the reply that refutes it.
impl Datum for Try {
    ghost tokens = { try_data };

    fn write<A: Allocator + Copy>(&self, alloc: A, writer: &mut Writer<A>) -> Outcome {
        writer.begin_object()?;
        member(alloc, writer, "first", &self.first)?;
        member(alloc, writer, "refutation", &self.refutation)?;
        writer.end_object()
    }
}
