// Named risks.
ghost use Rattle.std.specs.Prelude.{◌≡◌, ◌<◌, ◌^◌, ◌++◌, ◌∷◌, [], false, length, IfOk, OnOk, OnErr};
ghost use Rattle.std.specs.List.{list_any, filter_map};
ghost use Rattle.std.specs.Str.{bytes_eq};
ghost use Rattle.tx_plan.specs.Plan.{group_name, group_named};
ghost use Rattle.tx_risk.specs.inner.Rows.{risk_of_row};
ghost use Rattle.tx_risk.specs.NamedRisks.{risk_name, named_groups, names_unknown, AreRisksFor, AreWithin, risks_in};

use indexmap::IndexMap;
use std::alloc::{Allocator, Global};
use std::marker::Model;
use tx_plan::{ByWord, GroupId, NameKey, Plan};
use tx_text::NoMemory;

/// The groups of a risk, and whether it names others too, which the plan has not.
#[derive(Drop)]
pub(crate) struct Row<A: Allocator> {
    pub(crate) groups: Vec<GroupId, A>,
    pub(crate) unknown: bool,
}

/// Risks in order: each has a name, and groups that may go together, such as those of one cable.
pub struct Risks<A: Allocator = Global> {
    rows: IndexMap<NameKey, Row<A>, ByWord, A>,
}

impl<A: Allocator> Drop for Risks<A> {
    fn drop(self) {
        let Self { rows } = self;
        drop(rows);
    }
}

impl<A: Allocator> Model for Risks<A> {
    ghost use Rattle.std.specs.Prelude.{List, map};
    ghost use Rattle.tx_risk.specs.NamedRisks.{NamedRisk};
    ghost use Rattle.tx_risk.specs.inner.Rows.{risk_of_row};

    ghost Value = { List NamedRisk };

    ghost view = { λ r. map risk_of_row r.rows.entries };
}

impl<A: Allocator + Copy> Risks<A> {
    /// No risks. Takes no memory.
    pub fn none(alloc: A) -> Risks<A>
        ensures { result ≡ [] }
    {
        Risks {
            rows: IndexMap::with_hasher(alloc, ByWord),
        }
    }

    /// Those of another plan: under each name the groups that it has too, by their names.
    pub fn over(&self, alloc: A, plan: &Plan<A>, other: &Plan<A>) -> Result<Risks<A>, NoMemory>
        requires { AreRisksFor plan.now self.now }
        ensures risks { IfOk result (λ r. r ≡ risks_in plan.now other.now self.now) }
        ensures within { IfOk result (AreWithin other.now) }
    {
        let mut risks = Risks::none(alloc);
        for index in 0..self.len() {
            let name = NameKey::new(self.name(index));
            let unknown = self.has_unknown(index);
            let groups = groups_over(alloc, plan, other, self.groups(index))?;
            risks.add(name, Row { groups, unknown })?;
        }
        Ok(risks)
    }
}

/// The groups of another plan that have the names of these, as far as it has them.
fn groups_over<A: Allocator + Copy>(
    alloc: A,
    plan: &Plan<A>,
    other: &Plan<A>,
    groups: &[GroupId],
) -> Result<Vec<GroupId, A>, NoMemory>
    ensures { IfOk result (λ found. found.items
        ≡ filter_map (λ g. group_named other.now (group_name plan.now g)) groups.now) }
{
    let mut found = Vec::new(alloc);
    for i in 0..groups.len() {
        match other.group_named(plan.group_name(groups[i])) {
            Some(group) => found.push(group)?,
            None => {}
        }
    }
    Ok(found)
}

impl<A: Allocator> Risks<A> {
    /// How many risks.
    pub fn len(&self) -> usize
        ensures count { result ≡ length self.now }
        ensures few { result < 2 ^ 63 }
    {
        self.rows.len()
    }

    /// Whether a risk has the name.
    pub(crate) fn has(&self, name: &NameKey) -> bool
        ensures { result ≡ list_any (λ r. bytes_eq name.now r.name) self.now }
    {
        self.rows.contains_key(name)
    }

    /// The name of the risk at an index; no bytes, if there is none.
    pub fn name(&self, index: usize) -> &[u8]
        ensures { result.now ≡ risk_name self.now index }
    {
        match self.rows.get_index(index) {
            Some((name, _)) => name.bytes(),
            None => &[],
        }
    }

    /// The groups of the risk at an index; none, if there is none.
    pub(crate) fn groups(&self, index: usize) -> &[GroupId]
        ensures { result.now ≡ named_groups self.now index }
    {
        match self.rows.get_index(index) {
            Some((_, row)) => row.groups.as_slice(),
            None => &[],
        }
    }

    /// Whether the risk at an index names groups that the plan has not.
    pub fn has_unknown(&self, index: usize) -> bool
        ensures { result ≡ names_unknown self.now index }
    {
        match self.rows.get_index(index) {
            Some((_, row)) => row.unknown,
            None => false,
        }
    }

    /// Appends a risk.
    pub(crate) fn add(&mut self, name: NameKey, row: Row<A>) -> Result<(), NoMemory>
        requires { list_any (λ r. bytes_eq name r.name) self.old ≡ false }
        ensures ok { OnOk result (self.new
            ≡ self.old ++ risk_of_row (name, row) ∷ []) }
        ensures err { OnErr result (self.new ≡ self.old) }
    {
        self.rows.insert(name, row)?;
        Ok(())
    }
}
