// Commands.
ghost use Rattle.std.specs.Prelude.{◌≡◌};
ghost use Rattle.tx_commands.specs.Files.{names_of, run_files, survive_files, compare_files, page_files, file_names};

use crate::audit::AuditRequest;
use crate::change::ChangeRequest;
use crate::check::CheckRequest;
use crate::codes::CodesRequest;
use crate::explain::ExplainRequest;
use crate::files::{Files, STANDARD_INPUT};
use crate::fill::FillRequest;
use crate::grade::GradeRequest;
use crate::lint::LintRequest;
use crate::mend::MendRequest;
use crate::order::OrderRequest;
use crate::page::PageRequest;
use crate::run::{RunRequest, TellingRequest};
use crate::survive::{CompareRequest, SurviveRequest};
use crate::trace::{ThroughRequest, TraceRequest, WaysRequest};

/// What the words ask for.
pub enum Command {
    /// No words: a plan and a script on standard input.
    Pipe,
    Run(RunRequest),
    RunTelling(TellingRequest),
    Check(CheckRequest),
    Lint(LintRequest),
    Codes(CodesRequest),
    Audit(AuditRequest),
    Change(ChangeRequest),
    Order(OrderRequest),
    Mend(MendRequest),
    Survive(SurviveRequest),
    Compare(CompareRequest),
    Page(PageRequest),
    Grade(GradeRequest),
    Trace(TraceRequest),
    TraceThrough(ThroughRequest),
    TraceChanges(WaysRequest),
    Fill(FillRequest),
    Explain(ExplainRequest),
}

impl Drop for Command {
    fn drop(self) {
        match self {
            Self::Pipe => {}
            Self::Run(request) => drop(request),
            Self::RunTelling(request) => drop(request),
            Self::Check(request) => drop(request),
            Self::Lint(request) => drop(request),
            Self::Codes(request) => drop(request),
            Self::Audit(request) => drop(request),
            Self::Change(request) => drop(request),
            Self::Order(request) => drop(request),
            Self::Mend(request) => drop(request),
            Self::Survive(request) => drop(request),
            Self::Compare(request) => drop(request),
            Self::Page(request) => drop(request),
            Self::Grade(request) => drop(request),
            Self::Trace(request) => drop(request),
            Self::TraceThrough(request) => drop(request),
            Self::TraceChanges(request) => drop(request),
            Self::Fill(request) => drop(request),
            Self::Explain(request) => drop(request),
        }
    }
}

impl Command {
    /// Its files. Without words it is standard input that is read.
    pub fn files(&self) -> Files<'_>
        ensures { names_of result ≡ file_names self.now }
    {
        match self {
            Command::Pipe => Files::of_one(STANDARD_INPUT),
            Command::Run(request) => run_files(request),
            Command::RunTelling(request) => run_files(&request.run),
            Command::Check(request) => Files::of_two(&request.plan, &request.cert),
            Command::Lint(request) => {
                Files::reading([Some(&request.plan), request.risks.as_deref(), None])
            }
            Command::Audit(request) => Files {
                cert: request.cert.as_deref(),
                script: request.counter.as_deref(),
                ..Files::of_one(&request.plan)
            },
            Command::Change(request) => Files {
                plan: request.mixture.as_deref(),
                cert: request.cert.as_deref(),
                script: request.counter.as_deref(),
                ..Files::of_two(&request.old, &request.new)
            },
            Command::Order(order) => Files {
                plan: order.plan.as_deref(),
                cert: order.cert.as_deref(),
                ..Files::reading([Some(&order.old), Some(&order.new), order.done.as_deref()])
            },
            Command::Mend(request) => Files {
                plan: request.mended.as_deref(),
                cert: request.cert.as_deref(),
                ..Files::of_one(&request.plan)
            },
            Command::Survive(request) => survive_files(request),
            Command::Compare(request) => compare_files(request),
            Command::Page(request) => page_files(request),
            Command::TraceChanges(request) => Files::of_two(&request.plan, &request.old),
            Command::Codes(CodesRequest { plan })
            | Command::Grade(GradeRequest { plan, .. })
            | Command::Trace(TraceRequest { plan, .. })
            | Command::TraceThrough(ThroughRequest { plan, .. })
            | Command::Fill(FillRequest { plan, .. }) => Files::of_one(plan),
            Command::Explain(_) => Files::reading([None, None, None]),
        }
    }
}

/// The files of a run: the certificate, if there is one, before the script.
fn run_files(request: &RunRequest) -> Files<'_>
    ensures { names_of result ≡ run_files request.now }
{
    match &request.checked {
        None => Files::of_two(&request.plan, &request.script),
        Some((cert, _)) => {
            Files::reading([Some(&request.plan), Some(cert), Some(&request.script)])
        }
    }
}

/// The files of `survive`.
fn survive_files(request: &SurviveRequest) -> Files<'_>
    ensures { names_of result ≡ survive_files request.now }
{
    match &request.risks {
        None => Files::of_one(&request.plan),
        Some((risks, _)) => Files::of_two(&request.plan, risks),
    }
}

/// The files of `survive` with an old plan.
fn compare_files(request: &CompareRequest) -> Files<'_>
    ensures { names_of result ≡ compare_files request.now }
{
    match &request.risks {
        None => Files::of_two(&request.old, &request.new),
        Some((risks, _)) => {
            Files::reading([Some(&request.old), Some(&request.new), Some(risks)])
        }
    }
}

/// The files of `page`.
fn page_files(request: &PageRequest) -> Files<'_>
    ensures { names_of result ≡ page_files request.now }
{
    let reads = [
        Some(request.plan.as_str()),
        request.risks.as_deref(),
        request.old.as_deref(),
    ];
    Files {
        page: request.html.as_deref(),
        ..Files::reading(reads)
    }
}
