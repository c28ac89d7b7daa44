// What is wrong with a certificate text.
ghost use Rattle.std.specs.Prelude.{◌≡◌};
ghost use Rattle.tx_cert.specs.declared.fault.CertWord.TheVariants.{NoMemory as OutOfMemory};
ghost use Rattle.tx_cert.specs.CertFaults.{word_row, fault_row};

use tx_text::{FaultAt, FaultKind, NoMemory};

/// What is wrong with the words of a line. Of several the first in this order is reported.
#[derive(Clone, Copy, Debug, PartialEq, Eq)]
pub enum CertWord {
    /// C1: the first word is not one of a certificate's.
    UnknownWord,
    /// C2: too few or too many words.
    WrongCount,
    /// C3: the plan has no such code or exchange.
    UnknownName,
    /// C4: a rank that is no number of at most 65,535.
    BadNumber,
    /// C5: the exchange was ranked for the code before.
    Duplicate,
    /// C9: no memory was left.
    NoMemory,
}

impl From<NoMemory> for CertWord {
    ghost from_gives = { λ _ word. word ≡ OutOfMemory };

    fn from(_: NoMemory) -> CertWord {
        CertWord::NoMemory
    }
}

/// What is wrong with a certificate text, and the line of it, counted from 1.
pub type CertFault = FaultAt<CertWord>;

/// The code and the name of a fault, as `C5` and `Duplicate`.
pub fn code_and_name(kind: FaultKind<CertWord>) -> (&'static [u8], &'static [u8])
    ensures { (result.0.now, result.1.now) ≡ fault_row kind }
{
    match kind {
        FaultKind::Frame(fault) => fault.code_and_name(b"C6", b"C7", b"C8", b"C10"),
        FaultKind::Word(word) => word_row(word),
    }
}

fn word_row(word: CertWord) -> (&'static [u8], &'static [u8])
    ensures { (result.0.now, result.1.now) ≡ word_row word }
{
    match word {
        CertWord::UnknownWord => (b"C1", b"UnknownWord"),
        CertWord::WrongCount => (b"C2", b"WrongCount"),
        CertWord::UnknownName => (b"C3", b"UnknownName"),
        CertWord::BadNumber => (b"C4", b"BadNumber"),
        CertWord::Duplicate => (b"C5", b"Duplicate"),
        CertWord::NoMemory => (b"C9", b"NoMemory"),
    }
}
