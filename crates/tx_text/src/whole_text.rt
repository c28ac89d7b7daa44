// Reading a whole text.
ghost use Rattle.std.specs.Prelude.{◌≡◌, ◌++◌, true, Err, IfOk, OnOk};
ghost use Rattle.tx_text.specs.Calls.{CallsAtMost, Broken, source_calls};
ghost use Rattle.tx_text.specs.Ends.{IsWholeText};
ghost use Rattle.tx_text.specs.declared.whole_text.WholeTextFault.TheVariants.{NoMemory as OutOfMemory};

use crate::frame::SOURCE_CALLS;
use crate::no_memory::NoMemory;
use crate::source::Source;
use std::alloc::Allocator;

/// Why a whole text was not taken in.
#[derive(Clone, Copy)]
pub enum WholeTextFault {
    /// The source failed, or was not at its end after 4,294,967,295 calls.
    Read,
    /// No memory was left.
    NoMemory,
}

impl From<NoMemory> for WholeTextFault {
    ghost from_gives = { λ _ fault. fault ≡ OutOfMemory };

    fn from(_: NoMemory) -> WholeTextFault {
        WholeTextFault::NoMemory
    }
}

/// Reads a text from a source, to its end, by at most 4,294,967,295 calls, each for at most 4,096
/// bytes. A read fault means that the source failed, or was not at its end after so many calls. A
/// source that failed is never reported as anything else.
pub fn read_whole_text<R: Source, A: Allocator>(
    alloc: A,
    source: &mut R,
) -> Result<Vec<u8, A>, WholeTextFault>
    ensures text { IfOk result (λ text.
        IsWholeText (R.rest source.old) (R.rest source.new) text.items) }
    ensures fault { result ≡ Err WholeTextFault.Read →
        Broken R.called (R.failed source.new) source_calls source.old source.new }
    ensures failed { R.failed source.new ≡ true → result ≡ Err WholeTextFault.Read }
    ensures calls { CallsAtMost R.called source_calls source.old source.new }
{
    let mut text = Vec::new(alloc);
    let mut piece = [0; 4096];
    let mut left = SOURCE_CALLS;
    while left > 0 {
        left -= 1;
        match source.read(&mut piece) {
            Ok(0) => return Ok(text),
            Ok(n) => add(&mut text, &piece[..n])?,
            Err(_) => return Err(WholeTextFault::Read),
        }
    }
    Err(WholeTextFault::Read)
}

/// Adds bytes to a text.
fn add<A: Allocator>(text: &mut Vec<u8, A>, bytes: &[u8]) -> Result<(), NoMemory>
    ensures { OnOk result (text.new.items ≡ text.old.items ++ bytes.now) }
{
    text.extend_from_slice(bytes)?;
    Ok(())
}
