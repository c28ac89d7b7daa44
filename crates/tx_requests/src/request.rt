// What a request is.
ghost use Rattle.std.specs.Prelude.{Result, Ok};
ghost use Rattle.tx_files.specs.declared.ending.Ending.{Ending as EndingNow};
ghost use Rattle.tx_files.specs.declared.fault.CommandFault.{CommandFault as Fault};
ghost use Rattle.tx_requests.specs.Printing.{Printing};

use std::alloc::Allocator;
use tx_files::{CommandFault, Ending};
use tx_text::{Sink, WriteFault};

/// What the words of a command ask for: what it comes to over its texts, what it prints of that, and
/// what goes into its files.
pub trait Request<A: Allocator + Copy> {
    /// What its texts say.
    type Texts: Drop;

    /// What it comes to over them.
    type Answer: Drop;

    // What is known of its texts.
    ghost fits: { Self.Texts → Type 0 };

    // What it comes to over its texts.
    ghost answers: { Self → Self.Texts → Result Self.Answer Fault → Type 0 };

    // What it prints.
    ghost prints: { Self → Self.Answer → Printing };

    // The exit status, and what goes into its files.
    ghost ends: { Self → Self.Answer → Result (EndingNow A) Fault → Type 0 };

    /// Judges. It reads nothing and writes nothing.
    fn answer(&self, alloc: A, texts: Self::Texts) -> Result<Self::Answer, CommandFault>
        requires { fits texts }
        ensures { answers self.now texts result };

    /// Writes the report on an answer.
    fn print<W: Sink>(&self, answer: &Self::Answer, out: &mut W) -> Result<(), WriteFault>
        requires { (t : Self.Texts) × fits t × answers self.now t (Ok answer.now) }
        ensures { prints self.now answer.now (W.taken out.old) (W.taken out.new)
            (W.failed out.old) (W.failed out.new) result };

    /// What is left to say once the report is out.
    fn end(&self, alloc: A, answer: Self::Answer) -> Result<Ending<A>, CommandFault>
        requires { (t : Self.Texts) × fits t × answers self.now t (Ok answer) }
        ensures { ends self.now answer result };
}
