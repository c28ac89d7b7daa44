// An allocator that refuses the request of a chosen number, and passes the others on. A test makes
// each growth fail in turn: it runs its work over `&Refusing::new(rt.alloc(), n)` for n from 1 on,
// until a run ends before request n comes.
use std::alloc::{AllocError, Allocator};
use std::cell::Cell;

/// Passes each request on to `inner`, but refuses the one that `refused` names, counted from 1.
pub struct Refusing<B: Allocator> {
    inner: B,
    left: Cell<u64>,
}

impl<B: Allocator> Refusing<B> {
    /// Refuses request number `refused`, and none where that is 0.
    pub fn new(inner: B, refused: u64) -> Refusing<B> {
        Refusing {
            inner,
            left: Cell::new(refused),
        }
    }

    /// Whether the request that was to be refused has come; true from the start where none was to
    /// be.
    pub fn has_refused(&self) -> bool {
        self.left.get() == 0
    }
}

impl<B: Allocator> Drop for Refusing<B> {
    fn drop(self) {
        let Self { inner: _, left: _ } = self;
    }
}

// Counts a request down, and returns whether it is the one to be refused.
fn refuses(left: &Cell<u64>) -> bool {
    let n = left.get();
    if n == 0 {
        return false;
    }
    left.set(n - 1);
    n == 1
}

unsafe impl<B: Allocator> Allocator for Refusing<B> {
    ghost dealloc_token = { λ heap ty ptr. B.dealloc_token heap.inner ty ptr };

    fn allocate(&self, size: usize, align: usize) -> Result<*mut u8, AllocError> {
        if refuses(&self.left) {
            return Err(AllocError);
        }
        self.inner.allocate(size, align)
    }

    unsafe fn deallocate(&self, ptr: *mut u8, size: usize, align: usize) {
        self.inner.deallocate(ptr, size, align);
    }
}
