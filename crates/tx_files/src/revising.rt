// The text of a plan that was made.
ghost use Rattle.std.specs.Prelude.{◌≡◌, true, IfOk, IfErr};
ghost use Rattle.tx_plan.specs.Rules.{IsPlan};
ghost use Rattle.tx_files.specs.Faults.{memory_stop};
ghost use Rattle.tx_files.specs.Made.{text_of, plan_file, IsTextOfMade, HasTextIf};

use crate::fault::CommandFault;
use crate::made::MadeText;
use std::alloc::Allocator;
use tx_jobs::JobFault;
use tx_plan::Plan;
use tx_plantext::{Unrevised, revise};

/// The text of a plan that was made of the plan of this text, if it is asked for.
pub fn text_if_asked<A: Allocator + Copy>(
    alloc: A,
    asked: bool,
    text: &[u8],
    made: &Plan<A>,
) -> Result<Option<MadeText<A>>, CommandFault>
    requires { IsPlan made.now }
    ensures made { IfOk result (λ t. HasTextIf asked text.now made.now (plan_file made.now t)) }
    ensures refused { IfErr result (λ fault. fault ≡ memory_stop) }
    ensures asked { IfErr result (λ fault. asked ≡ true) }
{
    if asked {
        Ok(Some(text_of_made(alloc, text, made)?))
    } else {
        Ok(None)
    }
}

/// This text, revised, if the plan that was made is of its network; else that plan as it is written.
fn text_of_made<A: Allocator + Copy>(
    alloc: A,
    text: &[u8],
    made: &Plan<A>,
) -> Result<MadeText<A>, CommandFault>
    requires { IsPlan made.now }
    ensures made { IfOk result (λ t. IsTextOfMade text.now made.now (text_of made.now t)) }
    ensures refused { IfErr result (λ fault. fault ≡ memory_stop) }
{
    match revise(alloc, text, made) {
        Ok(revised) => Ok(MadeText::Revised(revised)),
        Err(Unrevised::OtherPlan) => Ok(MadeText::Written),
        Err(Unrevised::NoMemory) => Err(CommandFault::Job(JobFault::NoMemory)),
    }
}
