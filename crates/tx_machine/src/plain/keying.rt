// The event Key: a new call.
ghost use Rattle.std.specs.Prelude.{◌≡◌, ◌<◌, ◌-◌, ◌^◌, IfOk, OnErr};
ghost use Rattle.tx_machine.specs.Step.{accepted};
ghost use Rattle.tx_machine.specs.declared.event.Event.TheVariants.{Key};

use crate::plain::Plain;
use crate::{OpenCall, Phase, Reply};
use std::alloc::Allocator;
use tx_plan::Line;
use tx_text::{Figures, NoMemory};

impl<'p, A: Allocator + Copy> Plain<'p, A> {
    /// A new call.
    pub(crate) fn key(&mut self, line: Line, keyed: Figures) -> Result<Reply, NoMemory>
        requires numbers { self.old.state.numbers < 2 ^ 32 - 1 }
        requires events { self.old.state.events < 2 ^ 64 - 1 }
        ensures plan { self.new.plan ≡ self.old.plan }
        ensures ok { IfOk result (λ reply. accepted self.old.plan self.old.state
            (Key line keyed) ≡ (reply, self.new.state)) }
        ensures err { OnErr result (self.new ≡ self.old) }
    {
        self.calls.reserve(1)?;
        let open = self.calls.len();
        self.tickets.reserve(open + 1)?;
        let number = self.numbers + 1;
        let call = OpenCall {
            number,
            line,
            keyed,
            keyed_at: self.events + 1,
            hops: Vec::new(self.alloc),
            phase: Phase::Standing,
            collided: false,
        };
        self.calls.push_reserved(call);
        self.numbers = number;
        Ok(Reply::Keyed(number))
    }
}
