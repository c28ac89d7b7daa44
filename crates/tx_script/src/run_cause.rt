// Why a run stopped.
ghost use Rattle.std.specs.Prelude.{◌≡◌};
ghost use Rattle.tx_script.specs.declared.run_cause.RunCause.TheVariants.{NoMemory as OutOfMemory, Write};

use crate::script_word::ScriptFault;
use tx_text::{NoMemory, WriteFault};

/// Why a run stopped before its end.
#[derive(Clone, Copy, PartialEq, Eq)]
pub enum RunCause {
    /// The source failed, or was not at its end after the allowed number of calls.
    Read,
    /// The sink failed. The event in hand, if there was one, was applied.
    Write,
    /// The script is faulty.
    Script(ScriptFault),
    /// No memory was left for the event in hand, which was not applied.
    NoMemory,
}

impl From<NoMemory> for RunCause {
    ghost from_gives = { λ _ cause. cause ≡ OutOfMemory };

    fn from(_: NoMemory) -> RunCause {
        RunCause::NoMemory
    }
}

impl From<WriteFault> for RunCause {
    ghost from_gives = { λ _ cause. cause ≡ Write };

    fn from(_: WriteFault) -> RunCause {
        RunCause::Write
    }
}
