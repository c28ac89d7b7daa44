// What is kept of a circuit.
ghost use Rattle.std.specs.Prelude.{◌≡◌, ◌≤◌, ◌<◌, true, false};
ghost use Rattle.tx_circuits.specs.inner.Groups.{idle, free_slot};
ghost use Rattle.tx_circuits.specs.inner.Slots.{links_of, ahead, back, opposite, is_free, has_seized, with_seized, cleared_state};

use crate::lists::{End, Links, Way};

/// What holds a circuit.
#[derive(Clone, Copy)]
pub struct CircuitState {
    pub seized_first: bool,
    pub seized_other: bool,
    pub carried: bool,
    pub releasing: bool,
    pub out: bool,
}

impl CircuitState {
    /// The state of a circuit in service that no call holds.
    pub fn idle() -> CircuitState
        ensures { result ≡ idle }
    {
        CircuitState {
            seized_first: false,
            seized_other: false,
            carried: false,
            releasing: false,
            out: false,
        }
    }

    /// Whether the end has seized the circuit.
    pub fn has_seized(self, end: End) -> bool
        ensures { result ≡ has_seized end self }
    {
        match end {
            End::First => self.seized_first,
            End::Other => self.seized_other,
        }
    }

    /// Whether the circuit is free at the end.
    pub fn is_free(self, end: End) -> bool
        ensures { result ≡ is_free end self }
    {
        !self.carried && !self.releasing && !self.out && !self.has_seized(end)
    }

    /// The state where no call holds the circuit.
    pub fn cleared(self) -> CircuitState
        ensures { result ≡ cleared_state self }
    {
        CircuitState {
            out: self.out,
            ..CircuitState::idle()
        }
    }

    /// The state where the circuit is releasing, and no call carries it.
    pub fn in_release(mut self) -> CircuitState
        ensures { result ≡ record self { carried = false; releasing = true } }
    {
        self.carried = false;
        self.releasing = true;
        self
    }

    /// The state where the end has, or has not, seized the circuit.
    pub fn with_seized(self, end: End, to: bool) -> CircuitState
        ensures { result ≡ with_seized end to self }
    {
        match end {
            End::First => CircuitState {
                seized_first: to,
                ..self
            },
            End::Other => CircuitState {
                seized_other: to,
                ..self
            },
        }
    }
}

/// A circuit's state, and its links in the list of each end.
#[derive(Clone, Copy)]
pub struct Slot {
    pub state: CircuitState,
    pub first: Links,
    pub other: Links,
}

impl Slot {
    /// The slot at an index of so many circuits that are all free.
    pub fn among(index: usize, count: usize) -> Slot
        requires index { index < count }
        requires short { count ≤ 240 }
        ensures { result ≡ free_slot count index }
    {
        let links = Links::among(index, count);
        Slot {
            state: CircuitState::idle(),
            first: links,
            other: links,
        }
    }

    /// The links in the list of an end.
    pub fn links(self, end: End) -> Links
        ensures { result ≡ links_of end self }
    {
        match end {
            End::First => self.first,
            End::Other => self.other,
        }
    }

    /// The slot with another link in the list of an end.
    pub fn with_link(self, end: End, way: Way, to: Option<u8>) -> Slot
        ensures here { ahead way (links_of end result) ≡ to }
        ensures turned { ahead (back way) (links_of end result)
            ≡ ahead (back way) (links_of end self) }
        ensures other { links_of (opposite end) result ≡ links_of (opposite end) self }
        ensures state { result.state ≡ self.state }
    {
        let links = self.links(end).with(way, to);
        self.with_links(end, links)
    }

    /// The slot with other links in the list of an end.
    pub fn with_links(self, end: End, links: Links) -> Slot
        ensures here { links_of end result ≡ links }
        ensures other { links_of (opposite end) result ≡ links_of (opposite end) self }
        ensures state { result.state ≡ self.state }
    {
        match end {
            End::First => Slot {
                first: links,
                ..self
            },
            End::Other => Slot {
                other: links,
                ..self
            },
        }
    }
}
