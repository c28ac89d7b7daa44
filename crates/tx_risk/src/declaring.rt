// What each line of a text of risks declares.
ghost use Rattle.std.specs.Prelude.{◌≡◌, false, IfOk, IfErr, OnOk, OnErr};
ghost use Rattle.std.specs.List.{list_any, filter_map};
ghost use Rattle.std.specs.Str.{bytes_eq};
ghost use Rattle.tx_text.specs.Said.{Declared};
ghost use Rattle.tx_plan.specs.Plan.{group_named};
ghost use Rattle.tx_risk.specs.RiskText.{declare, is_memory, has_unknown, risk_by, risk_line, with_risk};

use crate::fault::RiskWord;
use crate::risks::{Risks, Row};
use std::alloc::Allocator;
use tx_plan::{GroupId, NameKey, Plan};
use tx_text::{NoMemory, Words, is_name};

/// Whether one of the words names no group.
fn has_unknown<A: Allocator>(plan: &Plan<A>, mut words: Words<'_>) -> bool
    ensures { result ≡ has_unknown plan.now words.entry }
{
    words.any(|word| plan.group_named(word).is_none())
}

/// The groups of the plan that the words name.
fn groups_of<A: Allocator + Copy>(
    alloc: A,
    plan: &Plan<A>,
    mut words: Words<'_>,
) -> Result<Vec<GroupId, A>, NoMemory>
    ensures { IfOk result (λ groups. groups.items ≡ filter_map (group_named plan.now) words.entry) }
{
    let mut groups = Vec::new(alloc);
    while let Some(word) = words.next() {
        match plan.group_named(word) {
            Some(group) => groups.push(group)?,
            None => {}
        }
    }
    Ok(groups)
}

/// Adds the risk of the groups that the words name.
fn add_risk<A: Allocator + Copy>(
    alloc: A,
    plan: &Plan<A>,
    risks: &mut Risks<A>,
    name: NameKey,
    words: Words<'_>,
) -> Result<(), NoMemory>
    requires { list_any (λ r. bytes_eq name r.name) risks.old ≡ false }
    ensures ok { OnOk result (risks.new ≡ with_risk plan.now risks.old name words.entry) }
    ensures same { OnErr result (risks.new ≡ risks.old) }
{
    let unknown = has_unknown(plan, words.again());
    let groups = groups_of(alloc, plan, words)?;
    risks.add(name, Row { groups, unknown })
}

/// A name of its own, and its groups.
fn risk_by<A: Allocator + Copy>(
    alloc: A,
    plan: &Plan<A>,
    version: u8,
    risks: &mut Risks<A>,
    name: &[u8],
    words: Words<'_>,
) -> Result<(), RiskWord>
    ensures declared { Declared is_memory (risk_by plan.now version risks.old name.now words.entry)
        risks.new result }
    ensures same { IfErr result (λ _. risks.new ≡ risks.old) }
{
    if !is_name(name) {
        return Err(RiskWord::BadName);
    }
    let own = NameKey::new(name);
    if risks.has(&own) {
        return Err(RiskWord::Duplicate);
    }
    if version == 1 && has_unknown(plan, words.again()) {
        return Err(RiskWord::UnknownName);
    }
    if !words.again().none_twice() {
        return Err(RiskWord::RepeatedGroup);
    }
    Ok(add_risk(alloc, plan, risks, own, words)?)
}

/// The words after RISK: a name, and one or more groups.
fn risk_line<A: Allocator + Copy>(
    alloc: A,
    plan: &Plan<A>,
    version: u8,
    risks: &mut Risks<A>,
    mut words: Words<'_>,
) -> Result<(), RiskWord>
    ensures declared { Declared is_memory (risk_line plan.now version risks.old words.entry)
        risks.new result }
    ensures same { IfErr result (λ _. risks.new ≡ risks.old) }
{
    let Some(name) = words.next() else {
        return Err(RiskWord::WrongCount);
    };
    if words.again().next().is_none() {
        return Err(RiskWord::WrongCount);
    }
    risk_by(alloc, plan, version, risks, name, words)
}

/// Declares what the line does under a header of this version, after the lines before it. A line
/// that is refused changes nothing.
#[tactic(auto, unfolding(crate::specs::RiskText::declare))]
pub(crate) fn declare<A: Allocator + Copy>(
    alloc: A,
    plan: &Plan<A>,
    version: u8,
    risks: &mut Risks<A>,
    mut words: Words<'_>,
) -> Result<(), RiskWord>
    ensures declared { Declared is_memory (declare plan.now version risks.old words.entry) risks.new
        result }
    ensures same { IfErr result (λ _. risks.new ≡ risks.old) }
{
    let Some(first) = words.next() else {
        return Err(RiskWord::UnknownWord);
    };
    if first == b"RISK".as_slice() {
        return risk_line(alloc, plan, version, risks, words);
    }
    if first == b"END".as_slice() {
        return Err(RiskWord::WrongCount);
    }
    Err(RiskWord::UnknownWord)
}
