//! The pointer to a solver.
ghost use Rattle.std.specs.Prelude.{◌≡◌, Option, None, Some, is_some, true};
ghost use Rattle.minimate_c.specs.Owned.{solver_coded, solver_owns};
ghost use Rattle.solver.specs.declared.solver.Solver.{Solver as ASolver};

use crate::parts::Parts;
use solver::Solver;
use std::alloc::Global;
use std::marker::Model;

/// A pointer that owns a solver, or leads to nothing.
#[derive(Drop)]
#[repr(C)]
pub struct SolverPointer {
    ptr: *mut u8,
    alloc: Global,
    pub ghost value: { Option ASolver } by { solver_coded },
}

impl Model for SolverPointer {
    ghost also_owns = { λ p. solver_owns p.alloc p.ptr p.value };
}

unsafe impl Send for SolverPointer {}

impl SolverPointer {
    /// To nothing. The address is any.
    pub(crate) fn to_none(ptr: *mut u8, alloc: Global) -> SolverPointer
        ensures { result.value ≡ None }
    {
        SolverPointer { ptr, alloc }
    }

    /// To this.
    pub(crate) fn of(value: Box<Solver>) -> SolverPointer
        ensures { result.value ≡ Some value.value }
    {
        SolverPointer::of_parts(Parts::of(value))
    }

    /// What it leads to.
    pub(crate) fn into_box(self) -> Box<Solver>
        requires { is_some self.value ≡ true }
        ensures { self.value ≡ Some result.value }
    {
        self.into_parts().into_box()
    }

    fn of_parts(parts: Parts<Solver, Global>) -> SolverPointer
        ensures { result.value ≡ Some parts.value }
    {
        let Parts { ptr, alloc } = parts;
        let ptr = ptr as *mut u8;
        SolverPointer { ptr, alloc }
    }

    fn into_parts(self) -> Parts<Solver, Global>
        requires { is_some self.value ≡ true }
        ensures { self.value ≡ Some result.value }
    {
        let SolverPointer { ptr, alloc } = self;
        let ptr = ptr as *mut Solver;
        Parts { ptr, alloc }
    }
}
