// A run that stopped.
use crate::run_cause::RunCause;

/// Where and why a run stopped: `event` is one more than the number of events, refused ones
/// included, whose reply and tickets were written whole.
#[derive(Clone, Copy, PartialEq, Eq)]
pub struct RunFault {
    pub event: u64,
    pub cause: RunCause,
}
