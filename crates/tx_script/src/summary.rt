// What is counted of a run.

/// What is counted of a run: the network's accepted events at its end, the replies of this run that
/// refused an event, the tickets of this run, and the network's open calls at its end.
#[derive(Clone, Copy, PartialEq, Eq)]
pub struct Summary {
    pub events: u64,
    pub refused: u64,
    pub tickets: u64,
    pub open_calls: u64,
}
