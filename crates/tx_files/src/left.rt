// Texts while groups are down: what is left of their plans.
ghost use Rattle.std.specs.Prelude.{◌≡◌, false, filter, length, option_map, IfOk, IfErr, IfSome};
ghost use Rattle.std.specs.List.{position, range_with_len};
ghost use Rattle.std.specs.Option.{option_map_or};
ghost use Rattle.tx_plan.specs.Plan.{Plan as PlanNow, group_name};
ghost use Rattle.tx_plan.specs.Rules.{IsPlan};
ghost use Rattle.tx_commands.specs.declared.down.Down.{Down as DownNow};
ghost use Rattle.tx_files.specs.Faults.{memory_stop};
ghost use Rattle.tx_files.specs.Left.{is_end_of, is_down, groups_down, plan_while, plan_up, plan_said, IsTextLeft, HasRules, lack_exchange, lack_group, missing_exchange, missing_group, missing_down, IsRefusedFor, IsLeft, one_plan, IsPlanLeft, text_while, plan_at_risk, IsLeftAtRisk, two_plans, AreLeft, plans_at_risk, AreLeftAtRisk, page_plans, IsLeftForPage};
ghost use Rattle.tx_files.specs.Names.{names_in, is_named};
ghost use Rattle.tx_files.specs.PageReading.{AreForPage};
ghost use Rattle.tx_files.specs.Reading.{HasItsRisks};
ghost use Rattle.tx_files.specs.TwoPlans.{AreJoined, HavePlansRisks};

use crate::fault::CommandFault;
use crate::missing::Named;
use crate::names::{is_named, name_at};
use crate::page_reading::PageTexts;
use crate::reading::PlanRisks;
use crate::two_plans::{PlanText, PlansRisks, TwoPlans, joined_of};
use std::alloc::Allocator;
use tx_commands::Down;
use tx_down::plan_without;
use tx_jobs::JobFault;
use tx_plan::{GroupId, Plan};
use tx_text::NoMemory;
use tx_trace::plan_left;

/// Whether a group has one of the names in a word, if there is one.
fn has_name<A: Allocator>(plan: &Plan<A>, group: GroupId, word: Option<&str>) -> bool
    ensures { result ≡ option_map_or (is_named (group_name plan.now group))
        (option_map (λ w. w.now) word.entry) false }
{
    match word {
        Some(word) => is_named(word, plan.group_name(group)),
        None => false,
    }
}

/// Whether the exchange of a name is an end of the group, if there is a name.
fn is_end_of<A: Allocator>(plan: &Plan<A>, group: GroupId, name: Option<&str>) -> bool
    ensures { result ≡ option_map_or (is_end_of plan.now group)
        (option_map (λ w. w.now) name.entry) false }
{
    match name {
        Some(name) => match plan.exchange_named(name.as_bytes()) {
            Some(exchange) => plan.other_end(group, exchange).is_some(),
            None => false,
        },
        None => false,
    }
}

/// Whether a group is down.
fn is_down<A: Allocator>(plan: &Plan<A>, down: &Down, group: GroupId) -> bool
    ensures { result ≡ is_down plan.now down.now group }
{
    has_name(plan, group, down.groups.as_deref())
        || is_end_of(plan, group, down.exchange.as_deref())
}

/// The groups of a plan that are down.
fn groups_down<A: Allocator + Copy>(
    alloc: A,
    plan: &Plan<A>,
    down: &Down,
) -> Result<Vec<GroupId, A>, NoMemory>
    ensures { IfOk result (λ groups. groups.items ≡ groups_down down.now plan.now) }
{
    let mut groups = Vec::new(alloc);
    for index in 0..plan.groups() {
        let group = GroupId::of(index);
        if is_down(plan, down, group) {
            groups.push(group)?;
        }
    }
    Ok(groups)
}

/// The plan without the groups that are down.
fn plan_while<A: Allocator + Copy>(
    alloc: A,
    plan: Plan<A>,
    down: &Down,
) -> Result<Plan<A>, NoMemory>
    ensures left { IfOk result (λ left. left ≡ plan_while down.now plan) }
    ensures rules { IfOk result IsPlan }
{
    let groups = groups_down(alloc, &plan, down)?;
    let left = plan_left(alloc, plan, &groups)?;
    left.rules();
    Ok(left)
}

/// The plan without the groups that are down, in its network too.
fn plan_up<A: Allocator + Copy>(
    alloc: A,
    plan: &Plan<A>,
    down: &Down,
) -> Result<Plan<A>, CommandFault>
    ensures left { IfOk result (λ left. left ≡ plan_up down.now plan.now) }
    ensures rules { IfOk result IsPlan }
    ensures refused { IfErr result (λ fault. fault ≡ memory_stop) }
{
    let groups = groups_down(alloc, plan, down)?;
    match plan_without(alloc, plan, &groups) {
        Ok(left) => {
            left.rules();
            Ok(left)
        }
        Err(_) => Err(CommandFault::Job(JobFault::NoMemory)),
    }
}

/// Whether neither plan has an exchange of this name.
fn lack_exchange<A: Allocator>(plan: &Plan<A>, other: &Plan<A>, name: &[u8]) -> bool
    ensures { result ≡ lack_exchange plan.now other.now name.now }
{
    plan.exchange_named(name).is_none() && other.exchange_named(name).is_none()
}

/// Whether neither plan has a group of this name.
fn lack_group<A: Allocator>(plan: &Plan<A>, other: &Plan<A>, name: &[u8]) -> bool
    ensures { result ≡ lack_group plan.now other.now name.now }
{
    plan.group_named(name).is_none() && other.group_named(name).is_none()
}

/// The place of the first name in a word of which neither plan has a group.
fn first_missing<A: Allocator>(plan: &Plan<A>, other: &Plan<A>, word: &str) -> Option<usize>
    ensures { result ≡ position (lack_group plan.now other.now) (names_in word.now) }
{
    word.split(',')
        .position(|name| lack_group(plan, other, name.as_bytes()))
}

/// Refuses an exchange that neither plan has, if one is to be down.
fn refuse_exchange<A: Allocator + Copy>(
    alloc: A,
    plan: &Plan<A>,
    other: &Plan<A>,
    name: Option<&str>,
) -> Result<(), CommandFault>
    ensures { IsRefusedFor
        (missing_exchange plan.now other.now (option_map (λ w. w.now) name.entry)) result }
{
    match name {
        Some(name) if lack_exchange(plan, other, name.as_bytes()) => {
            let name = name.as_bytes();
            Err(CommandFault::missing(alloc, plan, Named::Exchange, 0, name))
        }
        _ => Ok(()),
    }
}

/// Refuses a word with a group that neither plan has, if some are to be down.
fn refuse_groups<A: Allocator + Copy>(
    alloc: A,
    plan: &Plan<A>,
    other: &Plan<A>,
    word: Option<&str>,
) -> Result<(), CommandFault>
    ensures { IsRefusedFor
        (missing_group plan.now other.now (option_map (λ w. w.now) word.entry)) result }
{
    match word {
        Some(names) => match first_missing(plan, other, names) {
            Some(place) => {
                let name = name_at(word, place);
                Err(CommandFault::missing(alloc, plan, Named::Group, place, name))
            }
            None => Ok(()),
        },
        None => Ok(()),
    }
}

/// Refuses what is to be down by a name that neither plan has.
fn refuse_missing<A: Allocator + Copy>(
    alloc: A,
    plan: &Plan<A>,
    other: &Plan<A>,
    down: &Down,
) -> Result<(), CommandFault>
    ensures { IsRefusedFor (missing_down plan.now other.now down.now) result }
{
    refuse_exchange(alloc, plan, other, down.exchange.as_deref())?;
    refuse_groups(alloc, plan, other, down.groups.as_deref())
}

/// What a text says, of which groups can be left out.
pub trait PlansRead<A: Allocator + Copy>: Drop {
    // Its two plans, or its one plan twice.
    ghost plans: { Self → PlanNow × PlanNow };

    // What is known of it.
    ghost known: { Self → Type 0 };

    // It is left of another one while this is down.
    ghost left: { DownNow → Self → Self → Type 0 };

    /// Its two plans, or its one plan twice.
    fn plans(&self) -> (&Plan<A>, &Plan<A>)
        ensures first { result.0.now ≡ (plans self.now).0 }
        ensures second { result.1.now ≡ (plans self.now).1 };

    /// What is left of it.
    fn leave_out(self, alloc: A, down: &Down) -> Result<Self, CommandFault>
        requires { known self }
        ensures left { IfOk result (left down.now self) }
        ensures known { IfOk result known }
        ensures refused { IfErr result (λ fault. fault ≡ memory_stop) };
}

/// What was read, while this is down.
pub fn while_down<A: Allocator + Copy, T: PlansRead<A>>(
    alloc: A,
    down: Option<&Down>,
    texts: Result<T, CommandFault>,
) -> Result<T, CommandFault>
    requires { IfOk texts T.known }
    ensures left { IsLeft T.plans T.left texts (option_map (λ d. d.now) down.entry) result }
    ensures known { IfOk result T.known }
{
    let texts = texts?;
    let Some(down) = down else {
        return Ok(texts);
    };
    let (plan, other) = texts.plans();
    refuse_missing(alloc, plan, other, down)?;
    texts.leave_out(alloc, down)
}

impl<A: Allocator + Copy> PlansRead<A> for Plan<A> {
    ghost plans = { one_plan };

    ghost known = { IsPlan };

    ghost left = { IsPlanLeft };

    fn plans(&self) -> (&Plan<A>, &Plan<A>) {
        (self, self)
    }

    fn leave_out(self, alloc: A, down: &Down) -> Result<Self, CommandFault> {
        Ok(plan_while(alloc, self, down)?)
    }
}

/// A plan for which lists are found, so these have no group that is down either.
impl<A: Allocator + Copy> PlansRead<A> for PlanText<A> {
    ghost plans = { plan_said };

    ghost known = { HasRules };

    ghost left = { IsTextLeft };

    fn plans(&self) -> (&Plan<A>, &Plan<A>) {
        (&self.plan, &self.plan)
    }

    fn leave_out(self, alloc: A, down: &Down) -> Result<Self, CommandFault> {
        let PlanText { text, plan } = self;
        let plan = plan_up(alloc, &plan, down)?;
        Ok(PlanText { text, plan })
    }
}

impl<A: Allocator + Copy> PlansRead<A> for PlanRisks<A> {
    ghost plans = { plan_at_risk };

    ghost known = { HasItsRisks };

    ghost left = { IsLeftAtRisk };

    fn plans(&self) -> (&Plan<A>, &Plan<A>) {
        (&self.plan, &self.plan)
    }

    fn leave_out(self, alloc: A, down: &Down) -> Result<Self, CommandFault> {
        let PlanRisks { plan, risks } = self;
        let plan = plan_while(alloc, plan, down)?;
        Ok(PlanRisks { plan, risks })
    }
}

/// The text, and its plan without the groups that are down.
fn text_while<A: Allocator + Copy>(
    alloc: A,
    text: PlanText<A>,
    down: &Down,
) -> Result<PlanText<A>, NoMemory>
    ensures left { IfOk result (λ left. left ≡ text_while down.now text) }
    ensures rules { IfOk result (λ left. IsPlan left.plan) }
{
    let PlanText { text, plan } = text;
    let plan = plan_while(alloc, plan, down)?;
    Ok(PlanText { text, plan })
}

/// The same of an old plan, if there is one.
fn old_while<A: Allocator + Copy>(
    alloc: A,
    old: Option<PlanText<A>>,
    down: &Down,
) -> Result<Option<PlanText<A>>, NoMemory>
    ensures left { IfOk result (λ left. left ≡ option_map (text_while down.now) old) }
    ensures rules { IfOk result (λ left. IfSome left (λ o. IsPlan o.plan)) }
{
    match old {
        Some(old) => Ok(Some(text_while(alloc, old, down)?)),
        None => Ok(None),
    }
}

impl<A: Allocator + Copy> PlansRead<A> for TwoPlans<A> {
    ghost plans = { two_plans };

    ghost known = { AreJoined };

    ghost left = { AreLeft };

    fn plans(&self) -> (&Plan<A>, &Plan<A>) {
        (&self.old.plan, &self.new.plan)
    }

    fn leave_out(self, alloc: A, down: &Down) -> Result<Self, CommandFault> {
        let TwoPlans { old, new, .. } = self;
        let old = text_while(alloc, old, down)?;
        let new = text_while(alloc, new, down)?;
        let joined = joined_of(alloc, &old, &new)?;
        Ok(TwoPlans { old, new, joined })
    }
}

impl<A: Allocator + Copy> PlansRead<A> for PlansRisks<A> {
    ghost plans = { plans_at_risk };

    ghost known = { HavePlansRisks };

    ghost left = { AreLeftAtRisk };

    fn plans(&self) -> (&Plan<A>, &Plan<A>) {
        self.plans.plans()
    }

    fn leave_out(self, alloc: A, down: &Down) -> Result<Self, CommandFault> {
        let PlansRisks { plans, risks } = self;
        let plans = plans.leave_out(alloc, down)?;
        Ok(PlansRisks { plans, risks })
    }
}

impl<A: Allocator + Copy> PlansRead<A> for PageTexts<A> {
    ghost plans = { page_plans };

    ghost known = { AreForPage };

    ghost left = { IsLeftForPage };

    fn plans(&self) -> (&Plan<A>, &Plan<A>) {
        match &self.old {
            Some(old) => (&self.plan.plan, &old.plan),
            None => (&self.plan.plan, &self.plan.plan),
        }
    }

    fn leave_out(self, alloc: A, down: &Down) -> Result<Self, CommandFault> {
        let PageTexts { plan, risks, old } = self;
        let plan = text_while(alloc, plan, down)?;
        let old = old_while(alloc, old, down)?;
        Ok(PageTexts { plan, risks, old })
    }
}
