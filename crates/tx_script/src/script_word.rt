// What is wrong with a script.
ghost use Rattle.std.specs.Prelude.{◌≡◌};
ghost use Rattle.tx_script.specs.ScriptFaults.{word_row, fault_row};

use tx_text::{FaultAt, FaultKind};

/// What is wrong with the words of a script's line. Of several faults the first in this order is
/// given.
#[derive(Clone, Copy, Debug, PartialEq, Eq)]
pub enum ScriptWord {
    /// S1: the first word is no event's, or the third of a CLEAR line of three words is neither
    /// CALLER nor CALLED.
    UnknownWord,
    /// S2: the wrong number of words.
    WrongCount,
    /// S3: a national number, keyed figures, a call or a circuit that is none.
    BadNumber,
    /// S4: a code or a group that the plan does not have.
    UnknownName,
}

/// What is wrong with a line of a script, or with its frame.
pub type ScriptKind = FaultKind<ScriptWord>;

/// A fault of a script, with its line, counted from 1.
pub type ScriptFault = FaultAt<ScriptWord>;

/// The code and the name of a fault, as `S1` and `UnknownWord`. A source that failed has no code in
/// a script.
pub fn code_and_name(kind: ScriptKind) -> (&'static [u8], &'static [u8])
    ensures { (result.0.now, result.1.now) ≡ fault_row kind }
{
    match kind {
        FaultKind::Frame(fault) => fault.code_and_name(b"S5", b"S6", b"S7", b""),
        FaultKind::Word(word) => word_row(word),
    }
}

fn word_row(word: ScriptWord) -> (&'static [u8], &'static [u8])
    ensures { (result.0.now, result.1.now) ≡ word_row word }
{
    match word {
        ScriptWord::UnknownWord => (b"S1", b"UnknownWord"),
        ScriptWord::WrongCount => (b"S2", b"WrongCount"),
        ScriptWord::BadNumber => (b"S3", b"BadNumber"),
        ScriptWord::UnknownName => (b"S4", b"UnknownName"),
    }
}
