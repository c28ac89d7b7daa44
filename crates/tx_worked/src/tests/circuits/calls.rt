// Calls on a table with one group, as values.
use std::alloc::Allocator;
use tx_circuits::CircuitTable;
use tx_plan::{Circuit, ExchangeId, GroupId};

/// The indexes of the ends.
pub const ALFA: u16 = 0;

pub const BETA: u16 = 1;

pub static ENDS: [(&str, u16); 2] = [("ALFA", ALFA), ("BETA", BETA)];

/// What a call does: to a circuit, at an end where it asks for one and with a far end where it asks
/// for that too, or to the group.
#[derive(Clone, Copy)]
pub enum Verb {
    Seize,
    Withdraw,
    GiveUp,
    Hold,
    Release,
    Released,
    PutOut,
    PutIn,
    Fail,
    Restore,
    Block,
    Unblock,
}

pub static WHATS: [(&str, Verb); 12] = [
    ("seize", Verb::Seize),
    ("withdraw", Verb::Withdraw),
    ("give-up", Verb::GiveUp),
    ("hold", Verb::Hold),
    ("release", Verb::Release),
    ("released", Verb::Released),
    ("put-out", Verb::PutOut),
    ("put-in", Verb::PutIn),
    ("fail", Verb::Fail),
    ("restore", Verb::Restore),
    ("block", Verb::Block),
    ("unblock", Verb::Unblock),
];

/// A call, with the number of its circuit, or 0 for a call of the group.
#[derive(Clone, Copy)]
pub struct Call {
    pub what: Verb,
    pub number: u32,
    pub end: u16,
    pub far: u16,
}

/// The number of the circuit that an exchange takes next; 0 for none.
pub fn next<A: Allocator>(table: &CircuitTable<A>, exchange: u16) -> u32 {
    let exchange = ExchangeId::of(usize::from(exchange));
    if !table.may_seize(GroupId::of(0), exchange) {
        return 0;
    }
    match table.first_free(GroupId::of(0), exchange) {
        Some(circuit) => circuit.number,
        None => 0,
    }
}

/// The calls on a circuit, and then those of the group.
static CALLS: [(Verb, u16, u16); 17] = [
    (Verb::Seize, ALFA, ALFA),
    (Verb::Seize, BETA, ALFA),
    (Verb::Withdraw, ALFA, ALFA),
    (Verb::Withdraw, BETA, ALFA),
    (Verb::Hold, ALFA, ALFA),
    (Verb::Release, ALFA, ALFA),
    (Verb::Released, ALFA, ALFA),
    (Verb::PutOut, ALFA, ALFA),
    (Verb::PutIn, ALFA, ALFA),
    (Verb::GiveUp, ALFA, ALFA),
    (Verb::GiveUp, ALFA, BETA),
    (Verb::GiveUp, BETA, ALFA),
    (Verb::GiveUp, BETA, BETA),
    (Verb::Fail, ALFA, ALFA),
    (Verb::Restore, ALFA, ALFA),
    (Verb::Block, ALFA, ALFA),
    (Verb::Unblock, ALFA, ALFA),
];

/// One of the 43 calls on three circuits: 13 on each, and 4 of the group.
pub fn call_of(k: u32) -> Call {
    let (row, number) = if k < 39 {
        (k / 3, k % 3 + 1)
    } else {
        (k.saturating_sub(26).min(16), 0)
    };
    let (what, end, far) = CALLS[row as usize];
    Call {
        what,
        number,
        end,
        far,
    }
}

/// Makes a call where the table may be asked for it, and returns whether.
pub fn apply(table: &mut CircuitTable, call: Call) -> bool {
    let x = Circuit {
        group: GroupId::of(0),
        number: call.number,
    };
    match call.what {
        Verb::Seize | Verb::Withdraw | Verb::GiveUp => apply_at_end(table, &x, call),
        Verb::Fail | Verb::Restore | Verb::Block | Verb::Unblock => {
            apply_to_group(table, x.group, call.what)
        }
        _ => apply_to_circuit(table, &x, call.what),
    }
}

fn apply_at_end(table: &mut CircuitTable, x: &Circuit, call: Call) -> bool {
    let (at, far) = (
        ExchangeId::of(usize::from(call.end)),
        ExchangeId::of(usize::from(call.far)),
    );
    match call.what {
        Verb::Seize
            if table.has_circuit(x) && table.may_seize(x.group, at) && table.is_free(x, at) => {
            table.seize(x, at)
        }
        Verb::Withdraw if table.is_seized(x, at) => table.withdraw(x, at),
        Verb::GiveUp if table.is_seized(x, at) => table.give_up(x, at, far),
        _ => return false,
    }
    true
}

fn apply_to_circuit(table: &mut CircuitTable, x: &Circuit, what: Verb) -> bool {
    match what {
        Verb::Hold if table.seizer(x).is_some() => table.hold(x),
        Verb::Release if table.has_circuit(x) && table.is_unseized(x) && !table.is_releasing(x) => {
            table.release(x)
        }
        Verb::Released if table.is_releasing(x) => table.released(x),
        Verb::PutOut if table.has_circuit(x) && !table.is_out(x) => table.put_out(x),
        Verb::PutIn if table.is_out(x) => table.put_in(x),
        _ => return false,
    }
    true
}

fn apply_to_group(table: &mut CircuitTable, group: GroupId, what: Verb) -> bool {
    match what {
        Verb::Fail if table.has_group(group) && !table.is_failed(group) => table.fail(group),
        Verb::Restore if table.is_failed(group) => table.restore(group),
        Verb::Block if table.has_group(group) && !table.is_blocked(group) => table.block(group),
        Verb::Unblock if table.is_blocked(group) => table.unblock(group),
        _ => return false,
    }
    true
}
