// Why words give no command.
ghost use Rattle.std.specs.Prelude.{◌≡◌};
ghost use Rattle.tx_commands.specs.Faults.{status_of, fault_of_clap};
ghost use Rattle.tx_commands.specs.declared.fault.WordsFault.TheVariants.{NoMemory as OutOfMemory};

use clap::error::ErrorKind;
use std::alloc::{AllocError, AllocFailed};

/// Why the words give no command.
#[derive(Drop)]
pub enum WordsFault {
    /// The words are refused, or ask for help or for the version.
    Clap(clap::Error),
    /// `run` has some of its three options, and not all.
    Together,
    /// No memory was left.
    NoMemory,
}

impl WordsFault {
    /// The exit status: 0 for a request for help or for the version, 4 when memory runs out, else
    /// 64.
    pub fn status(&self) -> u8
        ensures { result ≡ status_of self.now }
    {
        match self {
            WordsFault::Clap(e) => match e.kind() {
                ErrorKind::DisplayHelp | ErrorKind::DisplayVersion => 0,
                ErrorKind::OutOfMemory => 4,
                _ => 64,
            },
            WordsFault::Together => 64,
            WordsFault::NoMemory => 4,
        }
    }

    /// What clap says of the words. Its lack of memory is reported as such.
    pub(crate) fn of_clap(e: clap::Error) -> WordsFault
        ensures { result ≡ fault_of_clap e }
    {
        if e.kind() == ErrorKind::OutOfMemory {
            WordsFault::NoMemory
        } else {
            WordsFault::Clap(e)
        }
    }
}

impl From<AllocError> for WordsFault {
    ghost from_gives = { λ _ fault. fault ≡ OutOfMemory };

    fn from(_e: AllocError) -> WordsFault {
        WordsFault::NoMemory
    }
}

impl<T: Drop> From<AllocFailed<T>> for WordsFault {
    ghost from_gives = { λ _ fault. fault ≡ OutOfMemory };

    fn from(_e: AllocFailed<T>) -> WordsFault {
        WordsFault::NoMemory
    }
}
