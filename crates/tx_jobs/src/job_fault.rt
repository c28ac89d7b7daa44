// Why a job stopped.
ghost use Rattle.std.specs.Prelude.{◌≡◌};
ghost use Rattle.tx_jobs.specs.declared.job_fault.JobFault.TheVariants.{NoMemory as OutOfMemory, Write as WriteFailed};
ghost use Rattle.tx_jobs.specs.JobFaults.{status_of, plan_fault, cert_fault, script_fault, run_fault};
ghost use Rattle.tx_jobs.specs.AuditJobs.{audit_fault};

use thiserror::Error;
use tx_audit::AuditFault;
use tx_cert::{CertFault, CertWord};
use tx_plan::PlanRefusal;
use tx_plantext::{PlanFault, PlanWord};
use tx_script::{RunCause, RunFault, ScriptFault};
use tx_text::{FaultKind, FrameFault, NoMemory, WriteFault};

/// Why a job stopped before its end. `write_fault` says it in full.
#[derive(Clone, Copy, Debug, PartialEq, Eq, Error)]
#[error("a job stopped")]
pub enum JobFault {
    /// The plan's text is refused.
    Plan(PlanFault),
    /// The certificate's text is refused.
    Cert(CertFault),
    /// The script's text is refused.
    Script(ScriptFault),
    /// An input failed.
    Read,
    /// The output failed.
    Write,
    /// No memory was left.
    NoMemory,
}

impl From<NoMemory> for JobFault {
    ghost from_gives = { λ _ fault. fault ≡ OutOfMemory };

    fn from(_: NoMemory) -> JobFault {
        JobFault::NoMemory
    }
}

impl From<WriteFault> for JobFault {
    ghost from_gives = { λ _ fault. fault ≡ WriteFailed };

    fn from(_: WriteFault) -> JobFault {
        JobFault::Write
    }
}

/// A failure to read and a lack of memory are reported as such.
impl From<PlanFault> for JobFault {
    ghost from_gives = { λ plan fault. fault ≡ plan_fault plan };

    fn from(fault: PlanFault) -> JobFault {
        match fault.kind {
            FaultKind::Frame(FrameFault::Read) => JobFault::Read,
            FaultKind::Frame(FrameFault::NoMemory)
            | FaultKind::Word(PlanWord::Refused(PlanRefusal::NoMemory)) => JobFault::NoMemory,
            FaultKind::Frame(_) | FaultKind::Word(_) => JobFault::Plan(fault),
        }
    }
}

/// A failure to read and a lack of memory are reported as such.
impl From<CertFault> for JobFault {
    ghost from_gives = { λ cert fault. fault ≡ cert_fault cert };

    fn from(fault: CertFault) -> JobFault {
        match fault.kind {
            FaultKind::Frame(FrameFault::Read) => JobFault::Read,
            FaultKind::Frame(FrameFault::NoMemory) | FaultKind::Word(CertWord::NoMemory) =>
                JobFault::NoMemory,
            FaultKind::Frame(_) | FaultKind::Word(_) => JobFault::Cert(fault),
        }
    }
}

/// A lack of memory is reported as such.
impl From<ScriptFault> for JobFault {
    ghost from_gives = { λ script fault. fault ≡ script_fault script };

    fn from(fault: ScriptFault) -> JobFault {
        match fault.kind {
            FaultKind::Frame(FrameFault::NoMemory) => JobFault::NoMemory,
            FaultKind::Frame(_) | FaultKind::Word(_) => JobFault::Script(fault),
        }
    }
}

impl From<RunFault> for JobFault {
    ghost from_gives = { λ run fault. fault ≡ run_fault run };

    fn from(fault: RunFault) -> JobFault {
        match fault.cause {
            RunCause::Read => JobFault::Read,
            RunCause::Write => JobFault::Write,
            RunCause::NoMemory => JobFault::NoMemory,
            RunCause::Script(fault) => JobFault::from(fault),
        }
    }
}

impl From<AuditFault> for JobFault {
    ghost from_gives = { λ audit fault. fault ≡ audit_fault audit };

    fn from(fault: AuditFault) -> JobFault {
        match fault {
            AuditFault::Plan(fault) => JobFault::from(fault),
            AuditFault::Write => JobFault::Write,
            AuditFault::NoMemory => JobFault::NoMemory,
        }
    }
}

impl JobFault {
    /// The exit status: 2 for a refused text, 3 for a read or a write fault, 4 when memory runs out.
    pub fn status(&self) -> u8
        ensures { result ≡ status_of self.now }
    {
        match self {
            JobFault::Plan(_) | JobFault::Cert(_) | JobFault::Script(_) => 2,
            JobFault::Read | JobFault::Write => 3,
            JobFault::NoMemory => 4,
        }
    }
}
