// Calls on the circuits of one group, by cases, and all short sequences of them beside a plain
// model.
pub(crate) mod calls;
mod model;

use crate::cases::{
    Told, named, next_number, next_word, tell, tell_broken, tell_count, without_lf,
};
use calls::{ALFA, BETA, Call, ENDS, WHATS, apply, call_of, next};
use model::Model;
use std::alloc::Global;
use tx_circuits::CircuitTable;
use tx_plan::{Circuit, GroupId, Plan};
use tx_text::words;

/// Makes the call that a line says, where it may be made, and returns whether.
fn apply_line(table: &mut CircuitTable, line: &[u8]) -> bool {
    let mut rest = words(line);
    let Some(what) = named(&WHATS, next_word(&mut rest)) else {
        return false;
    };
    let call = Call {
        what,
        number: next_number(&mut rest, 240),
        end: named(&ENDS, next_word(&mut rest)).unwrap_or(ALFA),
        far: named(&ENDS, next_word(&mut rest)).unwrap_or(ALFA),
    };
    apply(table, call)
}

/// Whether the group is failed or blocked, or one of its circuits seized, carried, releasing or
/// out.
fn has_marks(table: &CircuitTable) -> bool {
    let group = GroupId::of(0);
    for number in 1..241u32 {
        let x = Circuit { group, number };
        if !table.is_unseized(&x)
            || table.is_carried(&x)
            || table.is_releasing(&x)
            || table.is_out(&x)
        {
            return true;
        }
    }
    table.is_failed(group) || table.is_blocked(group)
}

/// Writes which number ALFA and BETA take next, or 0 for none.
fn tell_next(table: &CircuitTable, out: &mut Told) {
    tell_count(b": ", u64::from(next(table, ALFA)), b"", out);
    tell_count(b" ", u64::from(next(table, BETA)), b"\n", out);
}

/// Tells the new table, and then makes the call of each line and writes what is next after it.
pub(crate) fn tell_circuits(table: &mut CircuitTable, lines: &[u8], out: &mut Told) {
    tell(b"built", out);
    if !has_marks(table) {
        tell(b", no marks", out);
    }
    tell_next(table, out);
    for line in lines.split_inclusive(|byte| *byte == b'\n') {
        let line = without_lf(line);
        tell(line, out);
        if !apply_line(table, line) {
            tell(b", not made", out);
        }
        tell_next(table, out);
    }
}

/// Makes three of the 43 calls, as far as each may be made, on a table and on the model. Returns
/// whether the two agree.
fn agree_along(table: &mut CircuitTable, sequence: u32) -> bool {
    let mut model = Model::new();
    let mut rest = sequence;
    for _ in 0..3u8 {
        let call = call_of(rest % 43);
        rest /= 43;
        let made = apply(table, call);
        if made != model.apply(call) || made && !model.agrees(table) {
            return false;
        }
        if !made {
            break;
        }
    }
    true
}

/// Whether a new table agrees with the model along a sequence, if there is memory for it.
fn agrees(alloc: Global, plan: &Plan, sequence: u32) -> bool {
    match CircuitTable::build(alloc, plan) {
        Ok(mut table) => agree_along(&mut table, sequence),
        Err(_) => false,
    }
}

/// Tries all sequences of three calls, and writes how many there are.
pub(crate) fn try_sequences(alloc: Global, plan: &Plan, out: &mut Told) {
    let mut tried = 0u64;
    for sequence in 0..79_507u32 {
        if !agrees(alloc, plan, sequence) {
            tell_broken(b"not as the model, sequence", u64::from(sequence), out);
            break;
        }
        tried = tried.saturating_add(1);
    }
    tell_count(b"", tried, b" sequences agree\n", out);
}
