// A group of three circuits that is scanned each time.
ghost use Rattle.std.specs.Prelude.{◌<◌};

use super::calls::{ALFA, BETA, Call, Verb, next};
use tx_circuits::CircuitTable;
use tx_plan::{Circuit, ExchangeId, GroupId};

#[derive(Clone, Copy, PartialEq, Eq)]
struct Held {
    by_alfa: bool,
    by_beta: bool,
    carried: bool,
    releasing: bool,
    out: bool,
}

/// Three circuits between ALFA and BETA.
#[derive(Clone, Copy)]
pub struct Model {
    circuits: [Held; 3],
    failed: bool,
    blocked: bool,
}

const IDLE: Held = Held {
    by_alfa: false,
    by_beta: false,
    carried: false,
    releasing: false,
    out: false,
};

impl Held {
    // What the table tells of a circuit.
    fn told(table: &CircuitTable, number: u32) -> Held {
        let x = Circuit {
            group: GroupId::of(0),
            number,
        };
        Held {
            by_alfa: table.is_seized(&x, ExchangeId::of(usize::from(ALFA))),
            by_beta: table.is_seized(&x, ExchangeId::of(usize::from(BETA))),
            carried: table.is_carried(&x),
            releasing: table.is_releasing(&x),
            out: table.is_out(&x),
        }
    }

    fn by(self, exchange: u16) -> bool {
        if exchange == ALFA {
            return self.by_alfa;
        }
        self.by_beta
    }

    fn is_free(self, exchange: u16) -> bool {
        !self.by(exchange) && !self.carried && !self.releasing && !self.out
    }

    fn with_seized(self, exchange: u16, to: bool) -> Held {
        if exchange == ALFA {
            return Held {
                by_alfa: to,
                ..self
            };
        }
        Held {
            by_beta: to,
            ..self
        }
    }

    // Releasing, unless an exchange has seized it.
    fn released_unless(self, exchange: u16) -> Held {
        if self.by(exchange) {
            return self;
        }
        Held {
            carried: false,
            releasing: true,
            ..self
        }
    }

    // Whether a call may be made.
    fn allows(self, call: Call) -> bool {
        match call.what {
            Verb::Seize => self.is_free(call.end),
            Verb::Withdraw | Verb::GiveUp => self.by(call.end),
            Verb::Hold => self.by_alfa != self.by_beta,
            Verb::Release => !self.by_alfa && !self.by_beta && !self.releasing,
            Verb::Released => self.releasing,
            Verb::PutOut => !self.out,
            Verb::PutIn => self.out,
            _ => false,
        }
    }

    // What holds it after a call.
    fn after(self, call: Call) -> Held {
        match call.what {
            Verb::Seize => self.with_seized(call.end, true),
            Verb::Withdraw => self.with_seized(call.end, false),
            Verb::GiveUp => self.with_seized(call.end, false).released_unless(call.far),
            Verb::Hold => Held {
                carried: true,
                out: self.out,
                ..IDLE
            },
            Verb::Release => Held {
                carried: false,
                releasing: true,
                ..self
            },
            Verb::Released => Held {
                releasing: false,
                ..self
            },
            Verb::PutOut => Held { out: true, ..self },
            Verb::PutIn => Held { out: false, ..self },
            _ => self,
        }
    }
}

impl Model {
    pub fn new() -> Model {
        Model {
            circuits: [IDLE; 3],
            failed: false,
            blocked: false,
        }
    }

    /// Makes a call, and returns whether it may be made.
    pub fn apply(&mut self, call: Call) -> bool {
        let number = call.number;
        if 0 < number && number < 4 {
            let index = (number - 1) as usize;
            let held = self.circuits[index];
            self.circuits[index] = held.after(call);
            return held.allows(call);
        }
        let (failed, blocked) = (self.failed, self.blocked);
        match call.what {
            Verb::Fail => {
                for held in self.circuits.iter_mut() {
                    *held = Held {
                        out: held.out,
                        ..IDLE
                    };
                }
                self.failed = true;
            }
            Verb::Restore => self.failed = false,
            Verb::Block => self.blocked = true,
            _ => self.blocked = false,
        }
        self.failed != failed || self.blocked != blocked
    }

    // The number that an exchange takes next: ALFA the least, BETA the greatest; 0 for none.
    fn next(&self, exchange: u16) -> u32 {
        let mut found = 0;
        if self.failed || self.blocked {
            return found;
        }
        for index in 0..3u32 {
            if self.circuits[index as usize].is_free(exchange) && (found == 0 || exchange == BETA) {
                found = index + 1;
            }
        }
        found
    }

    /// Whether the table tells the same.
    pub fn agrees(&self, table: &CircuitTable) -> bool {
        let group = GroupId::of(0);
        let mut number = 0u32;
        for held in self.circuits {
            number = number.saturating_add(1);
            if held != Held::told(table, number) {
                return false;
            }
        }
        self.failed == table.is_failed(group)
            && self.blocked == table.is_blocked(group)
            && self.next(ALFA) == next(table, ALFA)
            && self.next(BETA) == next(table, BETA)
    }
}
