// Why a command that was found is refused.
ghost use Rattle.std.specs.Prelude.{◌≡◌};
ghost use Rattle.tx_commands.specs.declared.misuse.Misuse.TheVariants.{NoMemory as OutOfMemory};

use clap::error::ErrorKind;
use std::alloc::{AllocError, Global};

/// Why the words of a command are refused, beside what the library of command lines refuses.
#[derive(Drop)]
pub(crate) enum Misuse {
    /// A word that it needs is missing, which the grammar rules out.
    Incomplete,
    /// `run` has some of its three options, and not all.
    Together,
    /// The number of this option has a sign or leading zeros.
    Number(&'static str, String),
    /// `order` has a file to be made, or words that say where it was stopped, and no stage.
    StageMissing,
    /// `survive` has `--risks-only` without `--risks`.
    RisksOnly,
    /// `trace` has none of an exchange and a code, `--through` and `--from`, or some that do not go
    /// together.
    TraceWords,
    /// A file is to be made of a plan of which something is down.
    DownFiles,
    /// `explain` has these words, of which none is explained.
    NoSuchCode(String),
    /// Standard input is to be read for two files.
    InputTwice,
    /// A file to be made has this name, which is that of another file of the command, or of
    /// standard input.
    Overwrites(String),
    /// No memory was left.
    NoMemory,
}

impl From<AllocError> for Misuse {
    ghost from_gives = { λ _ misuse. misuse ≡ OutOfMemory };

    fn from(_e: AllocError) -> Misuse {
        Misuse::NoMemory
    }
}

/// The codes and words that are explained.
const EXPLAINED: &str = "There are X1 to X3, P3 to P22, A1 to A10, C1 to C10, S1 to S7, Q1 to Q11,
D1 to D8, M1 to M12, K1 to K7 and F1 to F5, those of a ticket, as NC or CLRA,
the names, as Overlap, and the words of reports, as CUT";

impl Misuse {
    /// What kind of refusal it is, as the library of command lines has them.
    pub(crate) fn kind(&self) -> ErrorKind {
        match self {
            Misuse::DownFiles | Misuse::InputTwice | Misuse::Overwrites(_) => {
                ErrorKind::ArgumentConflict
            }
            Misuse::Number(..) | Misuse::NoSuchCode(_) => ErrorKind::InvalidValue,
            Misuse::StageMissing | Misuse::RisksOnly | Misuse::TraceWords =>
                ErrorKind::MissingRequiredArgument,
            _ => ErrorKind::MissingSubcommand,
        }
    }

    /// What is said of it.
    pub(crate) fn message(&self, alloc: Global) -> Result<String, AllocError> {
        let reason = match self {
            Misuse::Number(option, word) => return format!(in alloc;
                "invalid value '{word}' for '--{option}': a number has no sign and no leading zeros"
            ),
            Misuse::NoSuchCode(line) => return format!(in alloc;
                "no such code: {line:?}\n\n{EXPLAINED}"
            ),
            Misuse::Overwrites(file) => return format!(in alloc;
                "a file to be made has the name of another file of the command, or is named -: {file:?}"
            ),
            Misuse::DownFiles => {
                "--down and --down-exchange do not go with --cert, --counter, --mixture and --plan"
            }
            Misuse::StageMissing => {
                "--plan, --cert, --done, --back and --spare-now go with --stage"
            }
            Misuse::RisksOnly => "--risks-only goes with --risks",
            Misuse::TraceWords =>
                "trace takes an exchange and a code, --through, or --from without --down",
            Misuse::InputTwice => {
                "standard input, which is named -, can be read for one file alone"
            }
            _ => "a command is missing",
        };
        String::from_str(alloc, reason)
    }
}
