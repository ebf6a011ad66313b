//! The rule that every step keeps, and what each of the two kinds of step tells.
ghost use Rattle.jobs.specs.Rule.{BoardHolds, view, read, lowered};

use crate::views::{JobView, Terms};
use crate::wins::Wins;
use atomic_table::{Play, Split, TableRule};
use std::marker::PhantomData;

/// The rule of a job board whose winning jobs are this set.
pub struct Lowest<W> {
    wins: PhantomData<W>,
}

impl<W: Wins> TableRule<(), JobView<W>, Terms<W>> for Lowest<W> {
    ghost holds = { λ terms. BoardHolds W.wins terms.wins.value terms.jobs };

    ghost first = { λ terms. view terms.wins.value terms.jobs terms.jobs 0 };
}

// The word is read.
pub(crate) struct Read<W> {
    wins: PhantomData<W>,
}

impl<W: Wins> Play<(), JobView<W>> for Read<W> {
    ghost then = { λ st. read W.wins };
}

// The word becomes the lesser of itself and a job.
pub(crate) struct Lower<W> {
    wins: PhantomData<W>,
}

impl<W: Wins> Play<(), JobView<W>> for Lower<W> {
    ghost then = { λ st. lowered W.wins st.first };
}

// Makes one seat more, which knows as much.
pub(crate) struct Deal;

impl<W> Split<JobView<W>> for Deal {
    ghost left = { λ v. v };

    ghost right = { λ v. v };
}
