//! Jobs that are dealt to two threads and stolen.
ghost use Rattle.std.specs.Prelude.{ℕ};

use jobs::{Count, deal, next_job};
use std::test::*;

// A round of four jobs.
struct Four;

impl Count for Four {
    ghost jobs = { 4 };
}

// The first of two threads is dealt 0 and 2, and takes 1 and 3 from the other.
#[test]
fn a_thread_takes_its_own_jobs_and_then_steals(rt: HostRuntime) -> Result<(), Fail> {
    let mut own = deal::<Four>(rt.alloc(), 0, 2, 4)?;
    let other = deal::<Four>(rt.alloc(), 1, 2, 4)?;
    let mut thieves = Vec::new(rt.alloc());
    thieves.push(other.stealer()?)?;
    for job in [0, 2, 1, 3] {
        assert!(rt; next_job(&rt, &mut own, &thieves) == Some(job));
    }
    assert!(rt; next_job(&rt, &mut own, &thieves) == None);
    Ok(())
}
