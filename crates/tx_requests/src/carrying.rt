// A request from its texts to its end.
ghost use Rattle.std.specs.Prelude.{Result, IfOk, option_map};
ghost use Rattle.tx_files.specs.Left.{IsLeft};
ghost use Rattle.tx_files.specs.declared.fault.CommandFault.{CommandFault as Fault};
ghost use Rattle.tx_requests.specs.Carried.{IsCarriedOut};

use crate::request::Request;
use std::alloc::Allocator;
use tx_commands::Down;
use tx_files::{CommandFault, Ending, PlansRead, while_down};
use tx_text::Sink;

/// Answers a request over its texts, if they were read, and prints the answer. `Err` is the first
/// fault: of a text or of the answer, and then nothing was written; or of the sink, which took a
/// front of the report; or a lack of memory for what goes into files.
pub(crate) fn carry_out<A: Allocator + Copy, C: Request<A>, W: Sink>(
    alloc: A,
    request: &C,
    texts: Result<C::Texts, CommandFault>,
    out: &mut W,
) -> Result<Ending<A>, CommandFault>
    requires { IfOk texts C.fits }
    ensures { IsCarriedOut C.answers C.prints C.ends request.now W.taken W.failed out.old out.new
        texts result }
{
    let texts = texts?;
    let answer = request.answer(alloc, texts)?;
    request.print(&answer, out)?;
    request.end(alloc, answer)
}

/// The same over what is left of the texts while this is down.
pub(crate) fn carry_left<A: Allocator + Copy, T: PlansRead<A>, C: Request<A, Texts = T>, W: Sink>(
    alloc: A,
    request: &C,
    down: Option<&Down>,
    texts: Result<T, CommandFault>,
    out: &mut W,
) -> Result<Ending<A>, CommandFault>
    requires read { IfOk texts T.known }
    requires known { (t : T) → T.known t → C.fits t }
    ensures { (left : Result T Fault)
        × IsLeft T.plans T.left texts (option_map (λ d. d.now) down.entry) left
        × IsCarriedOut C.answers C.prints C.ends request.now W.taken W.failed out.old out.new
        left result }
{
    let left = while_down(alloc, down, texts);
    carry_out(alloc, request, left, out)
}
