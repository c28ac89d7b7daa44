// What is wrong with a plan text.
ghost use Rattle.std.specs.Prelude.{◌≡◌};
ghost use Rattle.tx_plantext.specs.declared.fault.PlanWord.TheVariants.{Refused};
ghost use Rattle.tx_plantext.specs.PlanFaults.{refusal_row, fault_row};

use tx_plan::PlanRefusal;
use tx_text::{FaultAt, FaultKind};

/// What is wrong with the words of a line.
#[derive(Clone, Copy, Debug, PartialEq, Eq)]
pub enum PlanWord {
    /// P3: no line begins with the word, or the fifth word of a group is no direction. Under `PLAN
    /// 1` no line begins with BAR.
    UnknownWord,
    /// The builder refuses the declaration, or the number of words is wrong: that is `WrongCount`.
    Refused(PlanRefusal),
}

impl From<PlanRefusal> for PlanWord {
    ghost from_gives = { λ refusal word. word ≡ Refused refusal };

    fn from(refusal: PlanRefusal) -> PlanWord {
        PlanWord::Refused(refusal)
    }
}

/// What is wrong with a plan text, and the line of it, counted from 1.
pub type PlanFault = FaultAt<PlanWord>;

/// The code and the name of a fault, as `P11` and `Overlap`.
pub fn code_and_name(kind: FaultKind<PlanWord>) -> (&'static [u8], &'static [u8])
    ensures { (result.0.now, result.1.now) ≡ fault_row kind }
{
    match kind {
        FaultKind::Frame(fault) => fault.code_and_name(b"P17", b"P18", b"P19", b"P20"),
        FaultKind::Word(PlanWord::UnknownWord) => (b"P3", b"UnknownWord"),
        FaultKind::Word(PlanWord::Refused(refusal)) => refusal_row(refusal),
    }
}

fn refusal_row(refusal: PlanRefusal) -> (&'static [u8], &'static [u8])
    ensures { (result.0.now, result.1.now) ≡ refusal_row refusal }
{
    match refusal {
        PlanRefusal::WrongCount => (b"P4", b"WrongCount"),
        PlanRefusal::BadName => (b"P5", b"BadName"),
        PlanRefusal::BadCode => (b"P6", b"BadCode"),
        PlanRefusal::BadNumber => (b"P7", b"BadNumber"),
        PlanRefusal::Duplicate => (b"P8", b"Duplicate"),
        PlanRefusal::Unknown => (b"P9", b"Unknown"),
        PlanRefusal::RangeOrder => (b"P10", b"RangeOrder"),
        PlanRefusal::Overlap => (b"P11", b"Overlap"),
        PlanRefusal::SameEnds => (b"P12", b"SameEnds"),
        PlanRefusal::NotOutgoing => (b"P13", b"NotOutgoing"),
        PlanRefusal::RepeatedGroup => (b"P14", b"RepeatedGroup"),
        PlanRefusal::RouteAtHome => (b"P15", b"RouteAtHome"),
        PlanRefusal::TooMany => (b"P16", b"TooMany"),
        PlanRefusal::BarAtHome => (b"P22", b"BarAtHome"),
        PlanRefusal::NoMemory => (b"P21", b"NoMemory"),
    }
}
