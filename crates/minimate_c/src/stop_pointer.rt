//! The pointer to what stops a solver.
ghost use Rattle.std.specs.Prelude.{◌≡◌, Option, None, Some, is_some, true};
ghost use Rattle.minimate_c.specs.Owned.{stop_coded, stop_owns};
ghost use Rattle.solver.specs.declared.listening.StopSource.{StopSource as ASource};

use crate::parts::Parts;
use solver::StopSource;
use std::alloc::Global;
use std::marker::Model;

/// A pointer that owns what stops a solver, or leads to nothing.
#[derive(Drop)]
#[repr(C)]
pub struct StopPointer {
    ptr: *mut u8,
    alloc: Global,
    pub ghost value: { Option ASource } by { stop_coded },
}

impl Model for StopPointer {
    ghost also_owns = { λ p. stop_owns p.alloc p.ptr p.value };
}

unsafe impl Send for StopPointer {}

impl StopPointer {
    /// To nothing. The address is any.
    pub(crate) fn to_none(ptr: *mut u8, alloc: Global) -> StopPointer
        ensures { result.value ≡ None }
    {
        StopPointer { ptr, alloc }
    }

    /// To this.
    pub(crate) fn of(value: Box<StopSource>) -> StopPointer
        ensures { result.value ≡ Some value.value }
    {
        StopPointer::of_parts(Parts::of(value))
    }

    /// What it leads to.
    pub(crate) fn into_box(self) -> Box<StopSource>
        requires { is_some self.value ≡ true }
        ensures { self.value ≡ Some result.value }
    {
        self.into_parts().into_box()
    }

    fn of_parts(parts: Parts<StopSource, Global>) -> StopPointer
        ensures { result.value ≡ Some parts.value }
    {
        let Parts { ptr, alloc } = parts;
        let ptr = ptr as *mut u8;
        StopPointer { ptr, alloc }
    }

    fn into_parts(self) -> Parts<StopSource, Global>
        requires { is_some self.value ≡ true }
        ensures { self.value ≡ Some result.value }
    {
        let StopPointer { ptr, alloc } = self;
        let ptr = ptr as *mut StopSource;
        Parts { ptr, alloc }
    }
}
