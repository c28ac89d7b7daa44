// What an audit comes to.
ghost use Rattle.std.specs.Prelude.{◌≡◌};
ghost use Rattle.tx_audit.specs.declared.audited.AuditFault.TheVariants.{Plan as PlanRefused, Write as WriteFailed, NoMemory as OutOfMemory};

use std::alloc::{Allocator, Global};
use tx_cert::Cert;
use tx_plan::Plan;
use tx_plantext::PlanFault;
use tx_rank::{Finding, Ranking};
use tx_text::{NoMemory, WriteFault};

/// The plan that was read, and what was found of it.
#[derive(Drop)]
pub enum Audited<A: Allocator = Global> {
    /// The plan is sound, as this certificate shows: it ranks the exchanges by their heights.
    Sound(Plan<A>, Cert<A>),
    /// No certificate certifies the plan: the findings, in their order.
    Unsound(Plan<A>, Vec<Finding<A>, A>),
}

impl<A: Allocator> Audited<A> {
    ghost use Rattle.tx_audit.specs.inner.Ranked.{audited_of};

    /// The plan, with what its ranking came to.
    pub(crate) fn of(plan: Plan<A>, ranking: Ranking<A>) -> Audited<A>
        ensures { result ≡ audited_of plan ranking }
    {
        match ranking {
            Ranking::Found(cert) => Audited::Sound(plan, cert),
            Ranking::Fails(findings) => Audited::Unsound(plan, findings),
        }
    }
}

/// Why an audit stopped.
#[derive(Clone, Copy)]
pub enum AuditFault {
    /// The plan's text is refused, its source failed, or its reader had no memory. Nothing was
    /// written.
    Plan(PlanFault),
    /// The sink failed: a front of the report was written.
    Write,
    /// No memory was left to rank the plan. Nothing was written.
    NoMemory,
}

impl From<PlanFault> for AuditFault {
    ghost from_gives = { λ plan fault. fault ≡ PlanRefused plan };

    fn from(plan: PlanFault) -> AuditFault {
        AuditFault::Plan(plan)
    }
}

impl From<WriteFault> for AuditFault {
    ghost from_gives = { λ _ fault. fault ≡ WriteFailed };

    fn from(_: WriteFault) -> AuditFault {
        AuditFault::Write
    }
}

impl From<NoMemory> for AuditFault {
    ghost from_gives = { λ _ fault. fault ≡ OutOfMemory };

    fn from(_: NoMemory) -> AuditFault {
        AuditFault::NoMemory
    }
}
