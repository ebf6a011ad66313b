//! Memory in which nothing lies.
ghost use Rattle.std.specs.Prelude.{◌≡◌, ℕ, IfSome};
ghost use Rattle.lent_memory.specs.Ownership.{IsMemorySize, bytes_at};

use std::alloc::Allocator;
use std::marker::Model;

/// So many bytes, aligned to 16, in which nothing lies.
#[repr(C)]
pub struct Region {
    pub(crate) ptr: *mut u8,
    pub(crate) size: usize,
    pub ghost fits: { IsMemorySize size },
}

impl Model for Region {
    ghost also_owns = { λ m. bytes_at m.ptr m.size };
}

impl Region {
    /// So many bytes of an allocator, which doesn't get them back.
    pub fn taken<A: Allocator>(alloc: &A, size: usize) -> Option<Region>
        requires { IsMemorySize size }
        ensures { IfSome result (λ m. m.size ≡ size) }
    {
        match alloc.allocate(size, 16) {
            Ok(ptr) => Some(Region { ptr, size }),
            Err(_) => None,
        }
    }

    /// How many bytes, and the memory again.
    pub fn with_size(self) -> (usize, Region)
        ensures { (result.0 ≡ self.size) × (result.1 ≡ self) }
    {
        let Region { ptr, size } = self;
        (size, Region { ptr, size })
    }
}

// Memory that came back from its one user, and whose size its lender knows.
pub(crate) struct Back {
    pub(crate) ptr: *mut u8,
    ghost size: { ℕ },
    ghost fits: { IsMemorySize size },
}

impl Model for Back {
    ghost also_owns = { λ m. bytes_at m.ptr m.size };
}

impl Back {
    pub(crate) fn measured(self, size: usize) -> Region
        requires { size ≡ self.size }
        ensures { result.size ≡ size }
    {
        let Back { ptr } = self;
        Region { ptr, size }
    }
}
