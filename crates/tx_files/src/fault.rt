// Why a command stopped.
ghost use Rattle.std.specs.Prelude.{◌≡◌, ◌⊎◌};
ghost use Rattle.tx_files.specs.Faults.{fault_status, plan_stop, risks_stop, done_stop, text_stop, memory_stop, write_stop, in_plan};
ghost use Rattle.tx_files.specs.declared.fault.CommandFault.TheVariants.{Job as OfJob, NoSuchName as NoName};
ghost use Rattle.tx_files.specs.Missing.{missing};

use crate::missing::{Missing, Named};
use crate::two_plans::Which;
use std::alloc::Allocator;
use tx_jobs::JobFault;
use tx_join::Contradiction;
use tx_order::{DoneFault, DoneWord};
use tx_plan::Plan;
use tx_plantext::PlanFault;
use tx_risk::{RiskFault, RiskWord};
use tx_text::{FaultKind, FrameFault, NoMemory, WholeTextFault, WriteFault};

/// Why a command stopped before its end.
#[derive(Clone, Copy, Debug, PartialEq, Eq)]
pub enum CommandFault {
    /// What the jobs meet too.
    Job(JobFault),
    /// The text of the plan that is in force is refused.
    OldPlan(PlanFault),
    /// The text of the plan that is to be is refused.
    NewPlan(PlanFault),
    /// The plans of a change or an order contradict each other.
    Contradiction(Contradiction),
    /// The plans of a change or an order have together more exchanges, codes or groups than a plan
    /// may have.
    TooManyTogether,
    /// The text of risks is refused.
    Risks(RiskFault),
    /// The text of what is done is refused.
    Done(DoneFault),
    /// The order does not have the stage that was asked for, but so many.
    NoSuchStage(usize),
    /// The plan does not have a name that was asked for.
    NoSuchName(Missing),
    /// The old plan has not both the exchange and the code that were asked for.
    NotInOldPlan,
}

impl From<JobFault> for CommandFault {
    ghost from_gives = { λ job fault. fault ≡ OfJob job };

    fn from(fault: JobFault) -> CommandFault {
        CommandFault::Job(fault)
    }
}

impl From<NoMemory> for CommandFault {
    ghost from_gives = { λ _ fault. fault ≡ memory_stop };

    fn from(_: NoMemory) -> CommandFault {
        CommandFault::Job(JobFault::NoMemory)
    }
}

impl From<WriteFault> for CommandFault {
    ghost from_gives = { λ _ fault. fault ≡ write_stop };

    fn from(_: WriteFault) -> CommandFault {
        CommandFault::Job(JobFault::Write)
    }
}

/// A failure to read and a lack of memory are reported as such.
impl From<PlanFault> for CommandFault {
    ghost from_gives = { λ plan fault. fault ≡ plan_stop plan };

    fn from(fault: PlanFault) -> CommandFault {
        CommandFault::Job(JobFault::from(fault))
    }
}

/// A failure to read and a lack of memory are reported as such.
impl From<RiskFault> for CommandFault {
    ghost from_gives = { λ risks fault. fault ≡ risks_stop risks };

    fn from(fault: RiskFault) -> CommandFault {
        match fault.kind {
            FaultKind::Frame(FrameFault::Read) => CommandFault::Job(JobFault::Read),
            FaultKind::Frame(FrameFault::NoMemory) | FaultKind::Word(RiskWord::NoMemory) =>
                CommandFault::Job(JobFault::NoMemory),
            _ => CommandFault::Risks(fault),
        }
    }
}

/// A failure to read and a lack of memory are reported as such.
impl From<DoneFault> for CommandFault {
    ghost from_gives = { λ done fault. fault ≡ done_stop done };

    fn from(fault: DoneFault) -> CommandFault {
        match fault.kind {
            FaultKind::Frame(FrameFault::Read) => CommandFault::Job(JobFault::Read),
            FaultKind::Frame(FrameFault::NoMemory) | FaultKind::Word(DoneWord::NoMemory) =>
                CommandFault::Job(JobFault::NoMemory),
            _ => CommandFault::Done(fault),
        }
    }
}

impl From<WholeTextFault> for CommandFault {
    ghost from_gives = { λ text fault. fault ≡ text_stop text };

    fn from(fault: WholeTextFault) -> CommandFault {
        match fault {
            WholeTextFault::Read => CommandFault::Job(JobFault::Read),
            WholeTextFault::NoMemory => CommandFault::Job(JobFault::NoMemory),
        }
    }
}

impl CommandFault {
    /// The exit status: that of a job; 2 for a refused text and for plans that have no joined
    /// network; and 64 for what the plan does not have of what is asked for by names, and for a stage
    /// that the order does not have.
    pub fn status(&self) -> u8
        ensures { result ≡ fault_status self.now }
    {
        match self {
            CommandFault::Job(fault) => fault.status(),
            CommandFault::OldPlan(_)
            | CommandFault::NewPlan(_)
            | CommandFault::Contradiction(_)
            | CommandFault::TooManyTogether
            | CommandFault::Risks(_)
            | CommandFault::Done(_) => 2,
            _ => 64,
        }
    }

    /// That the plan does not have a name: which of the names that were asked for, counted from 0.
    pub fn missing<A: Allocator + Copy>(
        alloc: A,
        plan: &Plan<A>,
        named: Named,
        place: usize,
        word: &[u8],
    ) -> CommandFault
        ensures { (result ≡ NoName (missing plan.now named place word.now))
            ⊎ (result ≡ memory_stop) }
    {
        match Missing::of(alloc, plan, named, place, word) {
            Ok(missing) => CommandFault::NoSuchName(missing),
            Err(fault) => CommandFault::from(fault),
        }
    }

    /// A fault of the text of a plan.
    pub(crate) fn of_plan(which: Which, fault: PlanFault) -> CommandFault
        ensures { result ≡ in_plan which fault }
    {
        match JobFault::from(fault) {
            JobFault::Plan(fault) => match which {
                Which::This => CommandFault::Job(JobFault::Plan(fault)),
                Which::Old => CommandFault::OldPlan(fault),
                Which::New => CommandFault::NewPlan(fault),
            },
            other => CommandFault::Job(other),
        }
    }
}
