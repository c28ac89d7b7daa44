// What the replies and the tickets tell of a network.
use std::alloc::{Allocator, Global};
use tx_machine::{Event, Phase, Reply, Ticket};
use tx_plan::{Circuit, GroupId, Line};
use tx_text::NoMemory;

/// A call that is open, as far as its replies and the tickets tell.
#[derive(Clone, Copy)]
pub struct KnownCall {
    pub number: u32,
    pub line: Line,
    pub phase: Phase,
}

/// Takes an item out of a list.
fn take_out<T: Copy + PartialEq>(list: &mut Vec<T>, item: &T) {
    list.retain(|other| other != item);
}

/// Adds an item to a list, or takes it out, where the event that says so was not refused.
fn set_in<T: Copy + PartialEq>(
    list: &mut Vec<T>,
    item: &T,
    to: bool,
    reply: &Reply,
) -> Result<(), NoMemory> {
    if matches!(reply, Reply::Refused(_)) {
        return Ok(());
    }
    if to {
        list.push(*item)?;
    } else {
        take_out(list, item);
    }
    Ok(())
}

/// What the replies and the tickets tell of a network, so that most events can be such as it
/// accepts.
pub struct Picture {
    pub calls: Vec<KnownCall>,
    /// The number of the last call.
    pub last: u32,
    /// Circuits that calls gave up when they ended.
    pub given_up: Vec<Circuit>,
    pub failed: Vec<GroupId>,
    pub blocked: Vec<GroupId>,
    pub out: Vec<Circuit>,
    pub faulty: Vec<Line>,
    pub away: Vec<Line>,
}

impl Drop for Picture {
    fn drop(self) {
        let Self {
            calls,
            last: _,
            given_up,
            failed,
            blocked,
            out,
            faulty,
            away,
        } = self;
        drop(calls);
        drop(given_up);
        drop(failed);
        drop(blocked);
        drop(out);
        drop(faulty);
        drop(away);
    }
}

impl Picture {
    /// That of a network before its first event, with so many numbers given.
    pub fn new(alloc: Global, numbers: u32) -> Picture {
        Picture {
            calls: Vec::new(alloc),
            last: numbers,
            given_up: Vec::new(alloc),
            failed: Vec::new(alloc),
            blocked: Vec::new(alloc),
            out: Vec::new(alloc),
            faulty: Vec::new(alloc),
            away: Vec::new(alloc),
        }
    }

    /// Whether the line takes part in a call.
    pub fn is_engaged(&self, line: &Line) -> bool {
        for call in &self.calls {
            if call.line == *line || call.phase == Phase::Connected(*line) {
                return true;
            }
        }
        false
    }

    /// The index of the call of this number, or one after all.
    fn index(&self, number: u32) -> usize {
        for (index, call) in self.calls.iter().enumerate() {
            if call.number == number {
                return index;
            }
        }
        usize::MAX
    }

    /// The phase of the call of this number.
    fn phase(&self, number: u32) -> Option<Phase> {
        let call = self.calls.get(self.index(number))?;
        Some(call.phase)
    }

    /// Whether the call of this number is connected.
    pub fn is_connected(&self, number: u32) -> bool {
        matches!(self.phase(number), Some(Phase::Connected(_)))
    }

    /// The circuit that the call of this number has seized.
    fn seized_by(&self, number: u32) -> Option<Circuit> {
        match self.phase(number) {
            Some(Phase::Calling(circuit)) => Some(circuit),
            _ => None,
        }
    }

    fn set_phase(&mut self, number: u32, phase: Phase) {
        let index = self.index(number);
        if let Some(call) = self.calls.get_mut(index) {
            call.phase = phase;
        }
    }

    /// Takes in what the reply to an event tells.
    pub fn note(&mut self, event: &Event, reply: &Reply) -> Result<(), NoMemory> {
        match event {
            Event::Key { line, .. } => self.note_key(*line, reply),
            Event::Route(call) | Event::Confirm(call) => self.note_progress(*call, reply),
            Event::Clear { .. } => Ok(()),
            Event::Released(circuit) => {
                take_out(&mut self.given_up, circuit);
                Ok(())
            }
            Event::Fail(group) => set_in(&mut self.failed, group, true, reply),
            Event::Restore(group) => set_in(&mut self.failed, group, false, reply),
            Event::Block(group) => set_in(&mut self.blocked, group, true, reply),
            Event::Unblock(group) => set_in(&mut self.blocked, group, false, reply),
            Event::CircuitOut(circuit) => set_in(&mut self.out, circuit, true, reply),
            Event::CircuitIn(circuit) => set_in(&mut self.out, circuit, false, reply),
            Event::LineFault(line) => set_in(&mut self.faulty, line, true, reply),
            Event::LineMend(line) => set_in(&mut self.faulty, line, false, reply),
            Event::LineAway(line) => set_in(&mut self.away, line, true, reply),
            Event::LineBack(line) => set_in(&mut self.away, line, false, reply),
        }
    }

    /// Takes in a new call.
    fn note_key(&mut self, line: Line, reply: &Reply) -> Result<(), NoMemory> {
        if let Reply::Keyed(number) = reply {
            self.last = *number;
            self.calls.push(KnownCall {
                number: *number,
                line,
                phase: Phase::Standing,
            })?;
        }
        Ok(())
    }

    /// Takes in how a call goes on.
    fn note_progress(&mut self, call: u32, reply: &Reply) -> Result<(), NoMemory> {
        match reply {
            Reply::Seized(circuit) => self.set_phase(call, Phase::Calling(*circuit)),
            Reply::Connected(line) => self.set_phase(call, Phase::Connected(*line)),
            Reply::At(_) => self.set_phase(call, Phase::Standing),
            Reply::HeadOn { a, b, .. } => {
                if let Some(circuit) = self.seized_by(*a) {
                    self.given_up.push(circuit)?;
                }
                self.set_phase(*a, Phase::Standing);
                self.set_phase(*b, Phase::Standing);
            }
            _ => {}
        }
        Ok(())
    }

    /// Takes in that a call ended, and gave its circuits up.
    pub fn note_ticket<A: Allocator>(&mut self, ticket: &Ticket<A>) -> Result<(), NoMemory> {
        if let Some(circuit) = self.seized_by(ticket.number) {
            self.note_given_up(circuit)?;
        }
        self.calls.retain(|call| call.number != ticket.number);
        for hop in &ticket.path {
            self.note_given_up(hop.circuit)?;
        }
        Ok(())
    }

    /// Takes in that a circuit was given up, unless its group failed.
    fn note_given_up(&mut self, circuit: Circuit) -> Result<(), NoMemory> {
        if !self.failed.contains(&circuit.group) {
            self.given_up.push(circuit)?;
        }
        Ok(())
    }
}
