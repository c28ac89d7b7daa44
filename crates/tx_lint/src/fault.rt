// Faults of a plan's text, with the words at fault.
ghost use Rattle.std.specs.Prelude.{◌≡◌, None, option_map};
ghost use Rattle.tx_text.specs.declared.frame.FaultKind.TheVariants.{Frame};
ghost use Rattle.tx_text.specs.Words.{words_of};
ghost use Rattle.tx_lint.specs.AllFaults.{fault_at_end};
ghost use Rattle.tx_lint.specs.AtFault.{meant_name};
ghost use Rattle.tx_lint.specs.Gathered.{needed_word};
ghost use Rattle.tx_lint.specs.Lints.{fault_held};

use crate::at_fault::meant_name;
use tx_plan::PlanRefusal;
use tx_plantext::PlanWord;
use tx_text::{FaultKind, FrameFault, TextLine, words};

/// A fault of a plan's text.
#[derive(Clone, Copy)]
pub struct Fault<'t> {
    /// The number of its line, from 1.
    pub line: u64,
    /// What is wrong.
    pub kind: FaultKind<PlanWord>,
    /// The word at fault, where one word is at fault by itself.
    pub word: Option<&'t [u8]>,
    /// The name that its line was meant to declare, if it was meant to declare one.
    pub meant: Option<&'t [u8]>,
}

impl<'t> Fault<'t> {
    /// A fault of the form of a line, at which no word is at fault by itself.
    pub(crate) fn of_line(line: TextLine<'t>, fault: FrameFault) -> Fault<'t>
        ensures { fault_held result ≡ record {
          line = line.entry.number;
          kind = Frame fault;
          word = None;
          meant = meant_name (words_of line.entry.text.now);
        } }
    {
        Fault {
            line: line.number,
            kind: FaultKind::Frame(fault),
            word: None,
            meant: meant_name(words(line.text)),
        }
    }

    /// A fault of the end of a text, at this line.
    pub(crate) fn at_end(line: u64, fault: FrameFault) -> Fault<'t>
        ensures { fault_held result ≡ fault_at_end line (Frame fault) }
    {
        Fault {
            line,
            kind: FaultKind::Frame(fault),
            word: None,
            meant: None,
        }
    }

    /// The word for what the line needs, and what is not declared.
    pub(crate) fn needed_word(&self) -> Option<&'t [u8]>
        ensures { option_map (λ w. w.now) result
            ≡ needed_word (fault_held self.now) }
    {
        match self.kind {
            FaultKind::Word(PlanWord::Refused(PlanRefusal::Unknown)) => self.word,
            _ => None,
        }
    }
}
