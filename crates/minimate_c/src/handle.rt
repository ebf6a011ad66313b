//! What such a program holds: a pointer, and whether it leads to something. All zeros lead to nothing.
ghost use Rattle.std.specs.Prelude.{◌≡◌, MatchOption, None, Some, false, true, is_some};

use crate::solver_pointer::SolverPointer;
use crate::stop_pointer::StopPointer;
use solver::{Solver, StopSource};
use std::alloc::Global;
use std::{mem, ptr};

/// A solver, or none. It may go to another thread.
#[derive(Drop)]
#[repr(C)]
pub struct SolverHandle {
    pub full: bool,
    pub held: SolverPointer,
    spare: *mut u8,
    ghost kept: { full ≡ is_some held.value },
}

impl SolverHandle {
    /// No solver.
    pub fn none(alloc: Global) -> SolverHandle
        ensures closed { result.full ≡ false }
    {
        SolverHandle {
            full: false,
            held: SolverPointer::to_none(ptr::null_mut(), alloc),
            spare: ptr::null_mut(),
        }
    }

    /// Takes the solver out.
    pub fn take(&mut self, alloc: Global) -> Option<Box<Solver>>
        ensures taken { MatchOption result ((self.old.full ≡ false) × (self.old.held.value ≡ None))
            (λ b. (self.old.full ≡ true) × (self.old.held.value ≡ Some b.value)) }
        ensures closed { self.new.full ≡ false }
    {
        if !self.full {
            return None;
        }
        let none = SolverPointer::to_none(self.spare, alloc);
        let held = mem::replace(&mut self.held, none);
        self.full = false;
        Some(held.into_box())
    }

    /// Puts a solver in.
    pub fn put(&mut self, solver: Box<Solver>)
        ensures put { self.new.held.value ≡ Some solver.value }
        ensures full { self.new.full ≡ true }
    {
        self.held = SolverPointer::of(solver);
        self.full = true;
    }
}

/// What stops a solver, or nothing. It may go to another thread.
#[derive(Drop)]
#[repr(C)]
pub struct StopHandle {
    pub full: bool,
    pub held: StopPointer,
    spare: *mut u8,
    ghost kept: { full ≡ is_some held.value },
}

impl StopHandle {
    /// Nothing that stops one.
    pub fn none(alloc: Global) -> StopHandle
        ensures closed { result.full ≡ false }
    {
        StopHandle {
            full: false,
            held: StopPointer::to_none(ptr::null_mut(), alloc),
            spare: ptr::null_mut(),
        }
    }

    /// Takes it out.
    pub fn take(&mut self, alloc: Global) -> Option<Box<StopSource>>
        ensures taken { MatchOption result ((self.old.full ≡ false) × (self.old.held.value ≡ None))
            (λ b. (self.old.full ≡ true) × (self.old.held.value ≡ Some b.value)) }
        ensures closed { self.new.full ≡ false }
    {
        if !self.full {
            return None;
        }
        let none = StopPointer::to_none(self.spare, alloc);
        let held = mem::replace(&mut self.held, none);
        self.full = false;
        Some(held.into_box())
    }

    /// Puts one in.
    pub fn put(&mut self, source: Box<StopSource>)
        ensures put { self.new.held.value ≡ Some source.value }
        ensures full { self.new.full ≡ true }
    {
        self.held = StopPointer::of(source);
        self.full = true;
    }
}
