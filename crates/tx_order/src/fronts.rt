// The stages of one code.
ghost use Rattle.std.specs.Prelude.{◌≡◌, ◌++◌, ◌∷◌, [], length, IfOk};
ghost use Rattle.tx_order.specs.Fronts.{front_of};

use crate::level::levels;
use std::alloc::{Allocator, Global};
use std::marker::Model;
use tx_text::NoMemory;

/// The fronts at which the stages of a code end.
#[derive(Drop)]
pub struct Fronts<A: Allocator = Global> {
    ends: Vec<u16, A>,
}

impl<A: Allocator> Model for Fronts<A> {
    ghost use Rattle.std.specs.Prelude.{ℕ, List};

    ghost Value = { List ℕ };

    ghost view = { λ t. t.ends.items };
}

impl<A: Allocator> Fronts<A> {
    /// No stage.
    pub fn new(alloc: A) -> Fronts<A>
        ensures { result ≡ [] }
    {
        Fronts {
            ends: Vec::new(alloc),
        }
    }

    /// Appends a stage.
    pub fn push(&mut self, end: u16) -> Result<(), NoMemory>
        ensures { IfOk result (λ _. self.new ≡ self.old ++ end ∷ []) }
    {
        self.ends.push(end)?;
        Ok(())
    }

    /// How many stages.
    pub fn len(&self) -> usize
        ensures { result ≡ length self.now }
    {
        self.ends.len()
    }

    /// The front before a stage.
    pub fn front(&self, limit: u8, stage: usize) -> u16
        ensures { result ≡ front_of limit self.now stage }
    {
        if stage == 0 {
            return 0;
        }
        match self.ends.get(stage - 1) {
            Some(end) => *end,
            None => levels(limit),
        }
    }
}
