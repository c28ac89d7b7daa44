// Codes that a run prints.
use crate::code_table::Entry;

/// The codes of refused events (M), the service codes, and the other causes for which calls end.
pub static RUN_CODES: [Entry; 21] = [
    [
        "M1",
        "UnknownCall",
        "No open call has this number.",
        "The call has ended, or was never keyed: look for its ticket.",
    ],
    [
        "M2",
        "NotStanding",
        "The call is not standing: it waits for a confirmation, or is connected.",
        "Confirm or clear it first.",
    ],
    [
        "M3",
        "NotCalling",
        "The call has seized no circuit.",
        "Route it first.",
    ],
    [
        "M4",
        "NotConnected",
        "The called party clears a call that is not connected.",
        "Let the caller clear.",
    ],
    [
        "M5",
        "UnknownLine",
        "The plan has no such line.",
        "Look at the LINES of the code; leading zeros count.",
    ],
    [
        "M6",
        "LineEngaged",
        "The line that calls takes part in a call.",
        "Clear that call first.",
    ],
    [
        "M7",
        "LineOutOfOrder",
        "The line that calls is out of order.",
        "Mend it first.",
    ],
    [
        "M8",
        "AlreadySo",
        "The group, circuit or line is failed, blocked, out, out of order or away already.",
        "Drop the event.",
    ],
    [
        "M9",
        "NotSo",
        "It is not failed, blocked, out, out of order or away.",
        "Drop the event.",
    ],
    [
        "M10",
        "NotReleasing",
        "The circuit is not releasing: nobody has given it up, it was released before, its group failed since, or a call has seized it from the far end.",
        "Release each circuit once, after its call has ended.",
    ],
    [
        "M11",
        "UnknownCircuit",
        "The group has no circuit of this number.",
        "Look at the count of the group.",
    ],
    [
        "M12",
        "Exhausted",
        "All 4,294,967,295 call numbers are given (of KEY alone), or 18,446,744,073,709,551,615 events were accepted.",
        "Begin a new run.",
    ],
    [
        "OCC",
        "Engaged",
        "The line that was keyed is engaged: it takes part in another call, or is the one that called.",
        "Call again once that call has ended.",
    ],
    [
        "NC",
        "NoCircuits",
        "No circuits: each group in the list where the call stood is failed or blocked or has no circuit that is free there, or the list is empty, or it was the second head-on collision there.",
        "Look at the last exchange of the ticket. In a script a circuit is taken until RELEASED, also after its call. In the plan, add circuits to its groups or groups to its list; telexplan audit reports which lists are short.",
    ],
    [
        "NP",
        "NotASubscriber",
        "The called party is not a subscriber: no code begins the keyed figures, or the code has no such line.",
        "Look at the CODE and LINES of the plan; leading zeros count.",
    ],
    [
        "DER",
        "OutOfOrder",
        "The line that was keyed is out of order.",
        "Mend it first: in a script by MEND.",
    ],
    [
        "ABS",
        "Absent",
        "The subscriber is absent.",
        "Call again once the subscriber is there: in a script after BACK.",
    ],
    [
        "NA",
        "NotAdmitted",
        "Correspondence is not admitted: the call has not left the exchange where it started, and that is barred for the code.",
        "If such calls are to be admitted, drop the BAR line of the exchange and the code, and write a ROUTE line if there is none.",
    ],
    [
        "CLRA",
        "ClearedByCaller",
        "The caller cleared the call.",
        "Nothing: calls end so.",
    ],
    [
        "CLRB",
        "ClearedByCalled",
        "The called party cleared the call.",
        "Nothing: calls end so.",
    ],
    [
        "LOST",
        "Lost",
        "A group failed, and the call had a circuit of it. As a reply: so many calls were on the group.",
        "Call again: the call takes another group if one of its list is up. telexplan survive reports whom a group cuts off.",
    ],
];
