// Why events are refused.

/// Why an event is refused. Of several that apply, the one of the least number is answered.
#[derive(Clone, Copy, PartialEq, Eq)]
pub enum Refusal {
    /// M1: no open call has the number.
    UnknownCall,
    /// M2: the call to be routed does not stand.
    NotStanding,
    /// M3: the call to be confirmed has seized no circuit.
    NotCalling,
    /// M4: the call that the called party clears is not connected.
    NotConnected,
    /// M5: the plan has no such line.
    UnknownLine,
    /// M6: the calling line is engaged.
    LineEngaged,
    /// M7: the calling line is out of order.
    LineOutOfOrder,
    /// M8: the group, circuit or line is already what the event makes it.
    AlreadySo,
    /// M9: the group, circuit or line is not what the event ends.
    NotSo,
    /// M10: the circuit is not releasing.
    NotReleasing,
    /// M11: the plan has no such circuit or group.
    UnknownCircuit,
    /// M12: all 4,294,967,295 call numbers were given (of `Key` alone), or
    /// 18,446,744,073,709,551,615 events were accepted.
    Exhausted,
}
