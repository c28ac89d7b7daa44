// What is wrong with a text of risks.
ghost use Rattle.std.specs.Prelude.{◌≡◌};
ghost use Rattle.tx_risk.specs.declared.fault.RiskWord.TheVariants.{NoMemory as OutOfMemory};
ghost use Rattle.tx_risk.specs.RiskFaults.{word_row, fault_row};

use tx_text::{FaultAt, FaultKind, NoMemory};

/// What is wrong with the words of a line. Of several the first in this order is reported.
#[derive(Clone, Copy, Debug, PartialEq, Eq)]
pub enum RiskWord {
    /// Q1: the first word is not one of a text of risks.
    UnknownWord,
    /// Q2: no name, or no groups.
    WrongCount,
    /// Q3: the name of the risk is no name.
    BadName,
    /// Q4: a risk of the name was declared before.
    Duplicate,
    /// Q5: the plan has no such group, under a header of version 1.
    UnknownName,
    /// Q6: a group is there twice.
    RepeatedGroup,
    /// Q10: no memory was left.
    NoMemory,
}

impl From<NoMemory> for RiskWord {
    ghost from_gives = { λ _ word. word ≡ OutOfMemory };

    fn from(_: NoMemory) -> RiskWord {
        RiskWord::NoMemory
    }
}

/// What is wrong with a text of risks, and the line of it, counted from 1.
pub type RiskFault = FaultAt<RiskWord>;

/// The code and the name of a fault, as `Q4` and `Duplicate`.
pub fn code_and_name(kind: FaultKind<RiskWord>) -> (&'static [u8], &'static [u8])
    ensures { (result.0.now, result.1.now) ≡ fault_row kind }
{
    match kind {
        FaultKind::Frame(fault) => fault.code_and_name(b"Q7", b"Q8", b"Q9", b"Q11"),
        FaultKind::Word(word) => word_row(word),
    }
}

fn word_row(word: RiskWord) -> (&'static [u8], &'static [u8])
    ensures { (result.0.now, result.1.now) ≡ word_row word }
{
    match word {
        RiskWord::UnknownWord => (b"Q1", b"UnknownWord"),
        RiskWord::WrongCount => (b"Q2", b"WrongCount"),
        RiskWord::BadName => (b"Q3", b"BadName"),
        RiskWord::Duplicate => (b"Q4", b"Duplicate"),
        RiskWord::UnknownName => (b"Q5", b"UnknownName"),
        RiskWord::RepeatedGroup => (b"Q6", b"RepeatedGroup"),
        RiskWord::NoMemory => (b"Q10", b"NoMemory"),
    }
}
