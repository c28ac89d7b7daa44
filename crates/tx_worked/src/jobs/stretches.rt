// Lists of what happens at each number, told by stretches of numbers at which the same happens.
use crate::cases::{Told, tell, tell_count};
use tx_files::{CommandFault, write_command_fault};

/// What happens at a number: the event and the bytes, where they are told, and the fault.
#[derive(Clone, Copy, PartialEq, Eq)]
pub(crate) struct Happens {
    pub event: Option<u64>,
    pub bytes: Option<u64>,
    pub fault: Option<CommandFault>,
}

/// Numbers in a row at which the same happens.
#[derive(Clone, Copy)]
struct Stretch {
    from: u64,
    to: u64,
    happens: Happens,
}

impl Stretch {
    /// Tells the stretch as a line.
    fn tell(&self, out: &mut Told) {
        tell_count(b"", self.from, b"", out);
        tell_count(b" to ", self.to, b": ", out);
        if let Some(event) = self.happens.event {
            tell_count(b"event ", event, b", ", out);
        }
        if let Some(bytes) = self.happens.bytes {
            tell_count(b"", bytes, b" bytes, ", out);
        }
        match self.happens.fault {
            Some(fault) => {
                let _ = write_command_fault(&fault, out);
            }
            None => tell(b"done\n", out),
        }
    }
}

/// The stretch that has begun, if one has.
#[derive(Clone, Copy)]
pub(crate) struct Stretches {
    open: Option<Stretch>,
}

impl Stretches {
    pub(crate) fn new() -> Stretches {
        Stretches { open: None }
    }

    /// Takes the next number. Where something else happens there than before, the stretch is told
    /// and a new one begins.
    pub(crate) fn put(&mut self, number: u64, happens: Happens, out: &mut Told) {
        let mut from = number;
        if let Some(open) = self.open {
            if open.happens == happens {
                from = open.from;
            } else {
                open.tell(out);
            }
        }
        self.open = Some(Stretch {
            from,
            to: number,
            happens,
        });
    }

    /// Tells the last stretch.
    pub(crate) fn end(&self, out: &mut Told) {
        if let Some(open) = self.open {
            open.tell(out);
        }
    }
}
