// The lack of memory.
use std::alloc::AllocError;
use thiserror::Error;

/// No memory was left. Its field is private, so other crates make it of what an allocator refused.
#[derive(Clone, Copy, Debug, Error)]
#[error("no memory")]
pub struct NoMemory(#[from(alloc)] AllocError);
