// Why a case stops before its end.
use crate::cases::told::{Told, tell_broken};
use tx_text::{FaultAt, NoMemory};

/// Why a case stops before its end.
#[derive(Clone, Copy)]
pub enum Stop {
    /// A text is refused, at this line.
    Refused(u64),
    NoMemory,
    /// What is compared differs: who plays the case knows in what.
    Differs,
}

/// Tells why a case stopped, if it did.
pub fn tell_stop(played: Result<(), Stop>, out: &mut Told) {
    match played {
        Ok(()) => {}
        Err(Stop::Refused(line)) => tell_broken(b"a text is refused, line", line, out),
        Err(Stop::NoMemory) => tell_broken(b"no memory", 0, out),
        Err(Stop::Differs) => tell_broken(b"the networks differ", 0, out),
    }
}

impl<W: Copy> From<FaultAt<W>> for Stop {
    fn from(fault: FaultAt<W>) -> Stop {
        Stop::Refused(fault.line)
    }
}

impl From<NoMemory> for Stop {
    fn from(_: NoMemory) -> Stop {
        Stop::NoMemory
    }
}
