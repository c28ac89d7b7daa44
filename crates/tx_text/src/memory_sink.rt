// A sink over memory, which shows its bytes.
ghost use Rattle.std.specs.Prelude.{◌≡◌, IfOk, IfErr, false, []};
ghost use Rattle.tx_text.specs.declared.no_memory.NoMemory.{NoMemory};

use crate::no_memory::NoMemory;
use crate::sink::{Sink, WriteFault};
use std::alloc::{Allocator, Global};
use std::marker::Model;

/// A sink that takes `room` bytes, and then fails.
#[derive(Drop)]
pub struct MemorySink<A: Allocator = Global> {
    bytes: Vec<u8, A>,
    room: usize,
    failed: bool,
}

impl<A: Allocator> Model for MemorySink<A> {
    ghost use Rattle.std.specs.Prelude.{◌≤◌, vec_len, vec_capacity};
    ghost use Rattle.tx_text.specs.inner.Memory.{Store};

    ghost Value = { Store };

    ghost view = { λ s. record { bytes = s.bytes.items; room = s.room; failed = s.failed } };

    ghost invariant = { λ s. (vec_len s.bytes ≤ s.room) × (s.room ≤ vec_capacity s.bytes) };
}

impl<A: Allocator> MemorySink<A> {
    /// Reserves the room. No other call takes memory.
    pub fn new(alloc: A, room: usize) -> Result<MemorySink<A>, NoMemory>
        ensures ok { IfOk result (λ s. s ≡ record { bytes = []; room = room; failed = false }) }
    {
        let bytes = Vec::with_capacity(alloc, room)?;
        Ok(MemorySink {
            bytes,
            room,
            failed: false,
        })
    }

    /// The bytes that were taken.
    pub fn taken(&self) -> &[u8]
        ensures { result.now ≡ self.now.bytes }
    {
        self.bytes.as_slice()
    }
}

impl<A: Allocator> Sink for MemorySink<A> {
    ghost use Rattle.std.specs.Prelude.{◌≡◌, Some};
    ghost use Rattle.tx_text.specs.inner.Memory.{store_gives, store_leaves};

    ghost taken = { λ s. Some s.bytes };

    ghost failed = { λ s. s.failed };

    ghost called = { λ bytes r a b. (r ≡ store_gives a bytes) × (b ≡ store_leaves a bytes) };

    fn write(&mut self, bytes: &[u8]) -> Result<usize, WriteFault> {
        if self.failed || self.bytes.len() == self.room {
            self.failed = true;
            return Err(WriteFault);
        }
        let n = bytes.len().min(self.room - self.bytes.len());
        let (front, _) = bytes.split_at(n);
        match self.bytes.extend_from_slice(front) {
            Ok(()) => Ok(n),
            Err(_) => unreachable!(),
        }
    }

    fn has_failed(&self) -> bool {
        self.failed
    }
}
