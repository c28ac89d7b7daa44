// What the plain network looks at.
ghost use Rattle.std.specs.Prelude.{◌≡◌, ◌<◌, ◌≤◌, ◌+◌, ◌-◌, Some, None, find, map};
ghost use Rattle.tx_machine.specs.InUse.{is_free_at};
ghost use Rattle.tx_plan.specs.Circuits.{upward, downward};

use crate::plain::Plain;
use crate::plain::calls::{carried_by, seized_from};
use std::alloc::Allocator;
use tx_plan::{Circuit, ExchangeId, GroupId};

impl<'p, A: Allocator + Copy> Plain<'p, A> {
    /// Whether the exchange sees the circuit as free.
    pub(crate) fn is_free(&self, exchange: ExchangeId, circuit: &Circuit) -> bool
        ensures { result ≡ is_free_at self.now.plan self.now.state exchange circuit.now }
    {
        !carried_by(self.calls.as_slice(), circuit)
            && !self.marks.releasing.has(circuit)
            && !self.marks.out.has(circuit)
            && !seized_from(self.plan, self.calls.as_slice(), circuit, exchange)
    }

    /// The free circuit of the least number.
    pub(crate) fn first_up(
        &self,
        exchange: ExchangeId,
        group: GroupId,
        count: u32,
    ) -> Option<Circuit>
        requires { count ≤ 240 }
        ensures { result ≡ find (is_free_at self.now.plan self.now.state exchange)
            (map (λ n. record { group = group; number = n }) (upward count)) }
    {
        let mut n = 0;
        while n < count {
            let circuit = Circuit {
                group,
                number: n + 1,
            };
            if self.is_free(exchange, &circuit) {
                return Some(circuit);
            }
            n += 1;
        }
        None
    }

    /// The free circuit of the greatest number.
    pub(crate) fn first_down(
        &self,
        exchange: ExchangeId,
        group: GroupId,
        count: u32,
    ) -> Option<Circuit>
        ensures { result ≡ find (is_free_at self.now.plan self.now.state exchange)
            (map (λ n. record { group = group; number = n }) (downward count)) }
    {
        let mut n = count;
        while n > 0 {
            let circuit = Circuit { group, number: n };
            if self.is_free(exchange, &circuit) {
                return Some(circuit);
            }
            n -= 1;
        }
        None
    }
}
