// Codes of the faults and warnings of a plan.
use crate::code_table::Entry;

/// The codes of warnings (A), of a check (K) and of findings (F).
pub static PLAN_CODES: [Entry; 22] = [
    [
        "A1",
        "NothingToJudge",
        "No code has LINES, so no call can start, and an audit says YES to any lists, if no code begins another.",
        "Declare the lines of the codes: an exchange is an origin where a code with lines is at home.",
    ],
    [
        "A2",
        "NoLines",
        "A code at home at the exchange has no LINES, so nobody can be called there. The first is named, and how many more there are.",
        "Declare its lines, or drop the code.",
    ],
    [
        "A3",
        "UnusedGroup",
        "The group is in no list.",
        "Add it to a list, or drop it.",
    ],
    [
        "A4",
        "UnusedList",
        "The exchange has a list for the code, and no call for it comes there. The first such code is named, and how many more there are.",
        "Drop the list, or let another list lead there. If no code that is at home at the exchange has LINES, no call starts there.",
    ],
    [
        "A5",
        "NoList",
        "Calls for the code may start at the exchange, and it has neither a list nor a bar for them.",
        "Write a ROUTE for them, or BAR them, which needs the header PLAN 2.",
    ],
    [
        "A6",
        "UnusedBar",
        "No call can start at the exchange of the bar: no code that is at home there has LINES.",
        "Drop the bar, or declare the lines.",
    ],
    [
        "A7",
        "Ambiguous",
        "Another code begins the code, so a call for the shorter code may be taken for one for the longer.",
        "Give one of them another code.",
    ],
    [
        "A8",
        "SharedRisk",
        "All groups of the list are in one named risk, so they may fail at once. The spare number counts groups, and takes them for separate.",
        "Add a group to the list that is not in the risk. Ask telexplan survive whom the risk cuts off.",
    ],
    [
        "A9",
        "Unlisted",
        "No exchange has a list for the code, so calls for it come no further than where they start.",
        "Write ROUTE lines for it, or drop the code.",
    ],
    [
        "A10",
        "NoGroup",
        "No group leads to the exchange or from it.",
        "Write GROUP lines for it, or drop the exchange.",
    ],
    [
        "K1",
        "Ambiguous",
        "One code begins another.",
        "Give one of them another code.",
    ],
    [
        "K2",
        "HomeNotZero",
        "The home of the code does not have the rank 0.",
        "Take the certificate that the audit writes.",
    ],
    [
        "K3",
        "OriginUnranked",
        "Calls for the code may start at the exchange, and it has no rank.",
        "Take the certificate that the audit writes. The plan may have changed since.",
    ],
    [
        "K4",
        "TooHigh",
        "The rank of the exchange is above L + 1.",
        "Ask for a greater L, or shorten the ways.",
    ],
    [
        "K5",
        "Short",
        "The list of the exchange has no more than k groups.",
        "Add a group to it, or ask for a smaller k. If it is empty, write a ROUTE line.",
    ],
    [
        "K6",
        "TargetUnranked",
        "The group in the list of the exchange leads to an exchange without a rank.",
        "Take the certificate that the audit writes.",
    ],
    [
        "K7",
        "NotLower",
        "The group in the list of the exchange leads to an exchange whose rank is not smaller.",
        "If the audit says NO too, mend what it shows. Else take the certificate that it writes.",
    ],
    [
        "F1",
        "AMBIGUOUS",
        "One code begins another, so a call for the shorter code may be taken for one for the longer.",
        "Give one of them another code.",
    ],
    [
        "F2",
        "LOOP",
        "The lists lead back to an exchange that the walk has passed.",
        "Take one group of the loop out of the list of the exchange that comes before it in the walk, or let telexplan mend find lists. In a change, each list of the walk is the old one or the new one: if both plans are safe, change in two steps, by a plan in which no call goes so. At the end of the script of --counter the call is still up: with CLEAR 1 CALLER before its END a run prints the ticket too.",
    ],
    [
        "F3",
        "SHORT",
        "An exchange has too few groups for the spare number, or no list for the code at all.",
        "If the plan has no ROUTE line of the exchange for the code, its list is empty, and no k is small enough: write one, or BAR the exchanges where such calls start (with the header PLAN 2). Else add a group to its list, let telexplan mend find one, or ask for a smaller k. In a change it is the old list or the new one that is short.",
    ],
    [
        "F4",
        "LONG",
        "A call can pass more transits than the limit.",
        "Let an exchange of the walk lead on directly, let telexplan mend find lists, or ask for a greater L. In a change, do as for F2. At the end of the script of --counter the call is still up, as for F2.",
    ],
    [
        "F5",
        "UNSERVED",
        "Calls for the code may start at the exchange, and no lists over the groups of the plan can serve it.",
        "With RANK r: ask for L = r - 1 or more, or add groups that lead more directly. With GROUPS n: add groups from an exchange that the line of the code names after MISSING, and ask again. Where none is named, no group leads near enough to the home yet: look further on, or ask for a greater L. Or ask for a smaller k, or bar such calls.",
    ],
];
