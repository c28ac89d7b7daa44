// The mending of a plan.
ghost use Rattle.std.specs.Prelude.{◌≡◌, ◌↔◌, map, length, IfOk};
ghost use Rattle.std.specs.List.{flat_map};
ghost use Rattle.tx_plan.specs.Ambiguous.{ambiguous_of};
ghost use Rattle.tx_plan.specs.Certified.{IsCertified};
ghost use Rattle.tx_cert.specs.Certificate.{ranks_of, IsCertificateOf};
ghost use Rattle.tx_check.specs.Confirmed.{IsConfirmed};
ghost use Rattle.tx_rank.specs.Grades.{CanBeCertified};
ghost use Rattle.tx_rank.specs.Heights.{AreHeights};
ghost use Rattle.tx_rank.specs.Judged.{AreOrigins};
ghost use Rattle.tx_mend.specs.Routings.{IsRouting, CanBeMended};
ghost use Rattle.tx_mend.specs.LeastRanks.{indexes, outgoing};
ghost use Rattle.tx_mend.specs.Mended.{mended};
ghost use Rattle.tx_mend.specs.Unserved.{unserved, missing};
ghost use Rattle.tx_mend.specs.Laws.{KeepsSafeLists, ChangesLeast};
ghost use Rattle.tx_mend.specs.Mendings.{IsMended, OnMended, OnNoRouting};
ghost use Rattle.tx_mend.specs.inner.CodeRanks.{code_ranks};
ghost use Rattle.tx_mend.specs.inner.Full.{full_routes, settled_route};

use crate::basis::Basis;
use crate::cause::{Missing, Unserved};
use crate::causes::{Lacking, lacking_of};
use crate::code_ranks::{CodeRanks, all_code_ranks, all_kept_ranks};
use crate::outgoing::{Outgoing, all_outgoing};
use crate::rerouting::full_routes;
use crate::settling::settled_routes;
use crate::task::Task;
use std::alloc::{Allocator, Global};
use tx_cert::Cert;
use tx_check::confirm;
use tx_plan::{Bars, CodeId, Limits, Plan, Routes, bars_of, routes_of};
use tx_rank::{Ranking, origins_of, rank};
use tx_text::NoMemory;
use tx_trie::CodeTrie;

/// What the mending of a plan comes to.
#[derive(Drop)]
pub enum Mending<A: Allocator = Global> {
    /// The plan with other routes, the routes that it had, and a certificate by which it is
    /// certified.
    Mended(Plan<A>, Routes<A>, Cert<A>),
    /// No routes can be certified. The plan as it was, each code with the origins that cannot be
    /// served for it, the exchanges where groups are missing for these codes, and the ambiguous
    /// pair of codes.
    NoRouting(Plan<A>, Vec<Unserved, A>, Vec<Missing, A>, Option<(CodeId, CodeId)>),
}

/// What is found of a plan: the groups that each exchange may seize, where calls may start, the
/// least ranks of each code, what cannot be served, and the ambiguous pair.
#[derive(Drop)]
struct Found<A: Allocator> {
    seizable: Vec<Outgoing<A>, A>,
    origins: Vec<bool, A>,
    table: Vec<CodeRanks<A>, A>,
    lacking: Lacking<A>,
    pair: Option<(CodeId, CodeId)>,
}

fn look<A: Allocator + Copy>(alloc: A, plan: &Plan<A>, limits: Limits) -> Result<Found<A>, NoMemory>
    ensures seizable { IfOk result (λ f. f.seizable.items
        ≡ map (outgoing plan.now) (indexes (length plan.now.exchanges))) }
    ensures origins { IfOk result (λ f. AreOrigins plan.now f.origins.items) }
    ensures table { IfOk result (λ f. f.table.items ≡ map
        (code_ranks plan.now limits.limit limits.spare) (indexes (length plan.now.codes))) }
    ensures unserved { IfOk result (λ f.
        f.lacking.unserved.items ≡ unserved plan.now limits.limit limits.spare) }
    ensures missing { IfOk result (λ f.
        f.lacking.missing.items ≡ missing plan.now limits.limit limits.spare) }
    ensures pair { IfOk result (λ f. f.pair ≡ ambiguous_of plan.now.codes) }
{
    plan.rules();
    let seizable = all_outgoing(alloc, plan)?;
    let origins = origins_of(alloc, plan)?;
    let task = Task {
        plan,
        seizable: &seizable,
        origins: &origins,
        limits,
    };
    let table = all_code_ranks(alloc, &task)?;
    let lacking = lacking_of(alloc, &task, &table)?;
    let trie = CodeTrie::build(alloc, plan)?;
    Ok(Found {
        seizable,
        origins,
        table,
        lacking,
        pair: trie.ambiguous(),
    })
}

/// The full routes of a plan, and its own routes and bars.
#[derive(Drop)]
struct Filled<A: Allocator> {
    routes: Routes<A>,
    before: Routes<A>,
    bars: Bars<A>,
}

fn fill<A: Allocator + Copy>(
    alloc: A,
    plan: &Plan<A>,
    found: &Found<A>,
    limits: Limits,
) -> Result<Filled<A>, NoMemory>
    requires seizable { found.now.seizable.items
        ≡ map (outgoing plan.now) (indexes (length plan.now.exchanges)) }
    requires origins { AreOrigins plan.now found.now.origins.items }
    requires table { found.now.table.items ≡ map
        (code_ranks plan.now limits.limit limits.spare) (indexes (length plan.now.codes)) }
    ensures routes { IfOk result (λ f. f.routes ≡ full_routes plan.now limits.limit limits.spare) }
    ensures before { IfOk result (λ f. f.before ≡ plan.now.routes) }
    ensures bars { IfOk result (λ f. f.bars ≡ plan.now.bars) }
{
    plan.rules();
    let task = Task {
        plan,
        seizable: &found.seizable,
        origins: &found.origins,
        limits,
    };
    let table = all_kept_ranks(alloc, &task, &found.table)?;
    let basis = Basis {
        plan,
        seizable: &found.seizable,
        table: &table,
        limits,
    };
    Ok(Filled {
        routes: full_routes(alloc, &basis)?,
        before: routes_of(alloc, plan)?,
        bars: bars_of(alloc, plan)?,
    })
}

/// A certificate of a plan, its routes with the lists of exchanges that it ranks, and its bars.
#[derive(Drop)]
struct Settled<A: Allocator> {
    cert: Cert<A>,
    routes: Routes<A>,
    bars: Bars<A>,
}

fn settle<A: Allocator + Copy>(
    alloc: A,
    plan: &Plan<A>,
    before: &Routes<A>,
    limits: Limits,
) -> Result<Settled<A>, NoMemory>
    requires can_be { CanBeCertified plan.now limits.limit limits.spare }
    ensures certified { IfOk result (λ s.
        IsCertified plan.now (ranks_of s.cert) limits.limit limits.spare) }
    ensures heights { IfOk result (λ s. AreHeights plan.now (ranks_of s.cert)) }
    ensures fits { IfOk result (λ s. IsCertificateOf plan.now s.cert) }
    ensures routes { IfOk result (λ s. s.routes
        ≡ flat_map (settled_route before.now s.cert) plan.now.routes) }
    ensures bars { IfOk result (λ s. s.bars ≡ plan.now.bars) }
{
    match rank(alloc, plan, limits.limit, limits.spare)? {
        Ranking::Found(cert) => {
            let routes = settled_routes(alloc, plan, before, &cert)?;
            let bars = bars_of(alloc, plan)?;
            Ok(Settled { cert, routes, bars })
        }
        Ranking::Fails(_) => unreachable!(),
    }
}

/// Mends a plan: routes over its groups that are certified for the limits, wherever any are. A code
/// whose present routes can be certified keeps them, and any other keeps all groups of its lists
/// that can stay beside each other. The mended plan is given after the checker has said Yes to it.
/// Else it says which exchanges cannot be served for which code, and why. `Err` is lack of memory.
pub fn mend<A: Allocator + Copy>(
    alloc: A,
    plan: Plan<A>,
    limits: Limits,
) -> Result<Mending<A>, NoMemory>
    // It is mended exactly where any routes of the network are certified by any ranks.
    ensures wherever { IfOk result (λ m. IsMended m ↔ CanBeMended plan limits.limit limits.spare) }

    ensures routing { IfOk result (OnMended (λ q before cert. IsRouting plan q)) }
    ensures certified { IfOk result (OnMended (λ q before cert.
        IsCertified q (ranks_of cert) limits.limit limits.spare)) }
    ensures fits { IfOk result (OnMended (λ q before cert. IsCertificateOf q cert)) }
    ensures confirmed { IfOk result (OnMended (λ q before cert.
        IsConfirmed q cert limits.limit limits.spare)) }
    ensures kept { IfOk result (OnMended (λ q before cert.
        KeepsSafeLists plan q limits.limit limits.spare)) }
    ensures least { IfOk result (OnMended (λ q before cert.
        ChangesLeast plan q limits.limit limits.spare)) }
    ensures mended { IfOk result (OnMended (λ q before cert.
        q ≡ mended plan limits.limit limits.spare)) }
    ensures before { IfOk result (OnMended (λ q before cert. before ≡ plan.routes)) }

    ensures same { IfOk result (OnNoRouting (λ q told gaps pair. q ≡ plan)) }
    ensures told { IfOk result (OnNoRouting (λ q told gaps pair.
        told ≡ unserved plan limits.limit limits.spare)) }
    ensures missing { IfOk result (OnNoRouting (λ q told gaps pair.
        gaps ≡ missing plan limits.limit limits.spare)) }
    ensures pair { IfOk result (OnNoRouting (λ q told gaps pair.
        pair ≡ ambiguous_of plan.codes)) }
{
    plan.rules();
    let found = match look(alloc, &plan, limits) {
        Ok(found) => found,
        Err(error) => {
            drop(plan);
            return Err(error);
        }
    };
    if found.pair.is_some() || !found.lacking.unserved.is_empty() {
        let lacking = found.lacking;
        return Ok(Mending::NoRouting(plan, lacking.unserved, lacking.missing, found.pair));
    }
    let filled = match fill(alloc, &plan, &found, limits) {
        Ok(filled) => filled,
        Err(error) => {
            drop(plan);
            return Err(error);
        }
    };
    let full = plan.rerouted(filled.routes, filled.bars);
    match settle(alloc, &full, &filled.before, limits) {
        Ok(settled) => {
            let mended = full.rerouted(settled.routes, settled.bars);
            confirm(&mended, &settled.cert, limits);
            Ok(Mending::Mended(mended, filled.before, settled.cert))
        }
        Err(error) => {
            drop(full);
            Err(error)
        }
    }
}
