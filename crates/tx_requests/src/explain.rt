// The command `explain`.
ghost use Rattle.tx_requests.specs.Explain.{IsExplained};

use std::alloc::Allocator;
use tx_commands::{ExplainRequest, write_explanation};
use tx_files::{CommandFault, Ending};
use tx_text::Sink;

/// Writes what a line means, or the whole table.
pub(crate) fn do_explain<A: Allocator, W: Sink>(
    request: &ExplainRequest,
    out: &mut W,
) -> Result<Ending<A>, CommandFault>
    ensures { IsExplained request.now (W.taken out.old) (W.taken out.new)
        (W.failed out.old) (W.failed out.new) result }
{
    write_explanation(request.line.as_deref(), out)?;
    Ok(Ending::of(0))
}
