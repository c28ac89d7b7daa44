// What a plan is warned of.
ghost use Rattle.std.specs.Prelude.{◌≡◌};
ghost use Rattle.tx_lint.specs.LintText.{more_codes, warning_row};

use tx_plan::{CodeId, ExchangeId, GroupId};

/// What keeps to the format of a plan, and is of no use or most likely not meant.
#[derive(Clone, Copy)]
pub enum Warning {
    /// A1: no code has lines, so no call can start, and an audit says Yes to anything.
    NothingToJudge,
    /// A2: the first code at home at the exchange that has no lines, and how many more have none.
    NoLines(CodeId, usize),
    /// A3: the group is in no list.
    UnusedGroup(GroupId),
    /// A4: the first code for which the exchange has a list, and no call comes there, and how many
    /// more of these there are.
    UnusedList(CodeId, usize),
    /// A5: calls for the code may start at the exchange, and it has neither a list nor a bar.
    NoList(CodeId),
    /// A6: no call can start where the bar is.
    UnusedBar,
    /// A7: this shorter code begins the code.
    Ambiguous(CodeId),
    /// A8: all groups of the list go with the named risk at this index.
    SharedRisk(usize),
    /// A9: no exchange has a list for the code.
    Unlisted(CodeId),
    /// A10: no group leads to the exchange, or from it.
    NoGroup(ExchangeId),
}

impl Warning {
    /// Its code and its name, as `A3` and `UnusedGroup`.
    pub fn code_and_name(&self) -> (&'static [u8], &'static [u8])
        ensures { (result.0.now, result.1.now) ≡ warning_row self.now }
    {
        match self {
            Warning::NothingToJudge => (b"A1", b"NothingToJudge"),
            Warning::NoLines(..) => (b"A2", b"NoLines"),
            Warning::UnusedGroup(_) => (b"A3", b"UnusedGroup"),
            Warning::UnusedList(..) => (b"A4", b"UnusedList"),
            Warning::NoList(_) => (b"A5", b"NoList"),
            Warning::UnusedBar => (b"A6", b"UnusedBar"),
            Warning::Ambiguous(_) => (b"A7", b"Ambiguous"),
            Warning::SharedRisk(_) => (b"A8", b"SharedRisk"),
            Warning::Unlisted(_) => (b"A9", b"Unlisted"),
            Warning::NoGroup(_) => (b"A10", b"NoGroup"),
        }
    }
    /// How many more codes it is of.
    pub(crate) fn more_codes(&self) -> usize
        ensures { result ≡ more_codes self.now }
    {
        match self {
            Warning::NoLines(_, more) | Warning::UnusedList(_, more) => *more,
            _ => 0,
        }
    }
}
