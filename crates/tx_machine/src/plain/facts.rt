// What the plain network knows of a call, a line, a circuit and a group.
use crate::plain::Plain;
use crate::plain::calls::{call_of, engaged_in};
use crate::plain::keyed::code_of;
use crate::{Facts, LineStatus, Phase};
use std::alloc::Allocator;
use tx_plan::{Circuit, CodeId, ExchangeId, GroupId, Line, Plan};

impl<'p, A: Allocator + Copy> Facts for Plain<'p, A> {
    type A = A;

    ghost plan = { λ n. n.plan };

    ghost state = { λ n. n.state };

    fn plan(&self) -> &Plan<A> {
        self.plan
    }

    fn phase_of(&self, number: u32) -> Option<Phase> {
        match call_of(self.calls.as_slice(), number) {
            Some(call) => Some(call.phase),
            None => None,
        }
    }

    fn code_of(&self, keyed: &[u8]) -> Option<CodeId> {
        code_of(self.plan, keyed)
    }

    fn has_line(&self, line: &Line) -> bool {
        let plan = self.plan;
        match plan.line_at(line.code, line.national.bytes()) {
            Some(_) => true,
            None => false,
        }
    }

    fn status(&self, line: &Line) -> LineStatus {
        LineStatus {
            faulty: self.faulty.contains(line),
            away: self.away.contains(line),
            engaged: engaged_in(&self.calls, line),
        }
    }

    #[tactic(auto, using(crate::proofs::Choosing::counted_circuit))]
    fn has_circuit(&self, circuit: &Circuit) -> bool {
        let plan = self.plan;
        let count = plan.group_count(circuit.group);
        1 <= circuit.number && circuit.number <= count
    }

    fn is_releasing(&self, circuit: &Circuit) -> bool {
        self.marks.releasing.has(circuit)
    }

    fn is_out(&self, circuit: &Circuit) -> bool {
        self.marks.out.has(circuit)
    }

    fn is_failed(&self, group: GroupId) -> bool {
        self.marks.failed.has(group)
    }

    fn is_blocked(&self, group: GroupId) -> bool {
        self.marks.blocked.has(group)
    }

    #[tactic(auto, using(crate::proofs::Choosing::by_first_end))]
    fn first_free(&self, group: GroupId, exchange: ExchangeId) -> Option<Circuit> {
        if self.marks.failed.has(group) || self.marks.blocked.has(group) {
            return None;
        }
        let plan = self.plan;
        let count = plan.group_count(group);
        let (first, _) = plan.ends(group);
        if first == exchange {
            self.first_up(exchange, group, count)
        } else {
            self.first_down(exchange, group, count)
        }
    }

    fn numbers_given(&self) -> u32 {
        self.numbers
    }

    fn events_accepted(&self) -> u64 {
        self.events
    }
}
