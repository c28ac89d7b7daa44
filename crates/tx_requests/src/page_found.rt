// What is found of a plan for its page.
ghost use Rattle.std.specs.Prelude.{◌≡◌, [], None, map, IfOk, IfSome};
ghost use Rattle.tx_plan.specs.Certified.{IsCertified};
ghost use Rattle.tx_cert.specs.Certificate.{ranks_of};
ghost use Rattle.tx_risk.specs.NamedRisks.{AreRisksFor, AreWithin};
ghost use Rattle.tx_risk.specs.Outages.{AreOutcomes};
ghost use Rattle.tx_requests.specs.Page.{shown_codes, IsFound};

use crate::page_change::FoundChange;
use crate::page_codes::is_shown;
use std::alloc::{Allocator, Global};
use tx_audit::judge;
use tx_commands::PageRequest;
use tx_files::PageTexts;
use tx_plan::{CodeId, Limits, Plan};
use tx_rank::{Grade, Ranking, grade, origins_of};
use tx_risk::{Outcome, Risks, all_outcomes};
use tx_svg::{Picture, picture_of};
use tx_text::NoMemory;

/// What is found of a plan: the verdict on it, its grade, and what outages cut off, if it has one.
#[derive(Drop)]
pub struct Found<A: Allocator = Global> {
    pub ranking: Ranking<A>,
    pub grade: Grade<A>,
    pub outcomes: Vec<Outcome<A>, A>,
}

/// What is found of a plan.
pub(crate) fn found_of<A: Allocator + Copy>(
    alloc: A,
    plan: &Plan<A>,
    limits: Limits,
    risks: &Risks<A>,
) -> Result<Found<A>, NoMemory>
    requires { AreRisksFor plan.now risks.now }
    ensures { IfOk result (IsFound plan.now limits.limit limits.spare risks.now) }
{
    plan.rules();
    let ranking = judge(alloc, plan, limits)?;
    let grade = grade(alloc, plan)?;
    let outcomes = outcomes_of(alloc, plan, &grade, risks, false)?;
    Ok(Found {
        ranking,
        grade,
        outcomes,
    })
}

/// What outages cut off of a plan that has a grade; nothing of one that has none.
pub(crate) fn outcomes_of<A: Allocator + Copy>(
    alloc: A,
    plan: &Plan<A>,
    grade: &Grade<A>,
    risks: &Risks<A>,
    named_only: bool,
) -> Result<Vec<Outcome<A>, A>, NoMemory>
    requires ranks { IfSome grade.now.plan (λ b.
        IsCertified plan.now (ranks_of grade.now.ranks) b.limit b.spare) }
    requires risks { AreWithin plan.now risks.now }
    ensures outcomes { IfOk result (λ all. IfSome grade.now.plan (λ _.
        AreOutcomes plan.now risks.now named_only all.items)) }
    ensures none { IfOk result (λ all. grade.now.plan ≡ None → all.items ≡ []) }
{
    match grade.plan {
        Some(_) => all_outcomes(alloc, plan, &grade.ranks, risks, named_only),
        None => Ok(Vec::new(alloc)),
    }
}

/// The pictures of a page, by their codes.
pub(crate) fn pictures_of<A: Allocator + Copy>(
    alloc: A,
    request: &PageRequest,
    texts: &PageTexts<A>,
    found: &Found<A>,
    change: &Option<FoundChange<A>>,
) -> Result<Vec<Picture<A>, A>, NoMemory>
    ensures { IfOk result (λ pictures. map (λ q. q.code) pictures.items
        ≡ shown_codes request.now texts.now found.now.ranking change.now) }
{
    let plan = &texts.plan.plan;
    let origins = origins_of(alloc, plan)?;
    let mut pictures = Vec::new(alloc);
    for index in 0..plan.codes() {
        let code = CodeId::of(index);
        if is_shown(request, texts, &found.ranking, change, code) {
            pictures.push(picture_of(alloc, plan, &found.grade, &origins, code)?)?;
        }
    }
    Ok(pictures)
}
