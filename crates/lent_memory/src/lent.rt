//! The lent memory as an allocator.
ghost use Rattle.std.specs.Prelude.{◌≡◌, ◌≤◌, IfSome};
ghost use Rattle.lent_memory.specs.Ownership.{block_token};

use crate::memory::{Back, Region};
use std::alloc::{AllocError, Allocator};
use std::cell::Cell;
use std::mem::ManuallyDrop;

const MAX_ALIGN: usize = 16;

/// Gives the whole of its memory to whoever asks first, and again once it came back.
pub struct Lent {
    size: usize,
    memory: Cell<Option<Region>>,
}

impl Lent {
    /// Over this memory.
    pub fn new(memory: Region) -> Lent
        ensures { result.size ≡ memory.size }
    {
        let (size, memory) = memory.with_size();
        Lent {
            size,
            memory: Cell::new(Some(memory)),
        }
    }

    /// The bytes that it lends.
    pub fn size(&self) -> usize
        ensures { result ≡ self.now.size }
    {
        self.size
    }

    /// The whole of it, if it is here and enough.
    fn take(&self, size: usize, align: usize) -> Option<Region>
        ensures { IfSome result (λ m. (m.size ≡ self.now.size) × (size ≤ m.size) × (align ≤ 16)) }
    {
        if align > MAX_ALIGN || size > self.size {
            return None;
        }
        let (found, memory) = self.memory.replace(None)?.with_size();
        if found == self.size {
            return Some(memory);
        }
        let _none = unsafe { ManuallyDrop::new_unchecked(memory) };
        None
    }

    /// It is here again.
    fn give(&self, back: Back)
        requires { back.size ≡ self.now.size }
    {
        let before = self.memory.replace(Some(back.measured(self.size)));
        let _none = unsafe { ManuallyDrop::new_unchecked(before) };
    }
}

unsafe impl Allocator for Lent {
    ghost dealloc_token = { λ lent. block_token lent.size };

    fn allocate(&self, size: usize, align: usize) -> Result<*mut u8, AllocError> {
        match self.take(size, align) {
            Some(Region { ptr, size: _ }) => Ok(ptr),
            None => Err(AllocError),
        }
    }

    unsafe fn deallocate(&self, ptr: *mut u8, _size: usize, _align: usize) {
        self.give(Back { ptr });
    }
}

impl Drop for Lent {
    fn drop(self) {
        let Lent { size: _, memory } = self;
        let _kept = unsafe { ManuallyDrop::new_unchecked(memory) };
    }
}
