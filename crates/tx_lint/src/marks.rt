// What is marked before the entries of a plan are looked at.
ghost use Rattle.std.specs.Prelude.{◌≡◌, ℕ, ◌<◌, ◌||◌, ◌==◌, length, map, IfOk};
ghost use Rattle.std.specs.List.{list_any, AllByRecursion};
ghost use Rattle.tx_rank.specs.Judged.{AreOrigins};
ghost use Rattle.tx_rank.specs.Reached.{is_marked};
ghost use Rattle.tx_lint.specs.Warnings.{TellsWhereCallsCome, is_listed};
ghost use Rattle.tx_lint.specs.inner.Marks.{comes_by, coming_of, AreMarksOf};

use std::alloc::Allocator;
use tx_plan::{CodeId, ExchangeId, GroupId, Plan};
use tx_rank::{is_marked, origins_of, reached};
use tx_text::NoMemory;

/// Where calls may start, where those for each code come, and which groups are in a list.
pub(crate) struct Marks<A: Allocator> {
    origins: Vec<bool, A>,
    coming: Vec<Vec<bool, A>, A>,
    listed: Vec<bool, A>,
}

impl<A: Allocator> Drop for Marks<A> {
    fn drop(self) {
        let Self {
            origins,
            coming,
            listed,
        } = self;
        drop(origins);
        drop(coming);
        drop(listed);
    }
}

impl<A: Allocator + Copy> Marks<A> {
    /// The marks of a plan.
    #[tactic(auto, using(crate::proofs::Marked::marked_origin))]
    pub(crate) fn of(alloc: A, plan: &Plan<A>) -> Result<Marks<A>, NoMemory>
        ensures { IfOk result (AreMarksOf plan.now) }
    {
        let origins = origins_of(alloc, plan)?;
        let coming = coming(alloc, plan, &origins)?;
        let listed = listed(alloc, plan)?;
        plan.rules();
        Ok(Marks {
            origins,
            coming,
            listed,
        })
    }
}

impl<A: Allocator> Marks<A> {
    /// Whether calls may start at the exchange.
    pub(crate) fn is_origin(&self, exchange: ExchangeId) -> bool
        ensures { result ≡ is_marked self.now.origins.items exchange }
    {
        is_marked(&self.origins, exchange)
    }

    /// Whether some call for the code may come to the exchange.
    pub(crate) fn comes(&self, code: CodeId, exchange: ExchangeId) -> bool
        ensures { result ≡ coming_of self.now code exchange }
    {
        match self.coming.get(code.index()) {
            Some(marks) => is_marked(marks, exchange),
            None => false,
        }
    }

    /// Whether the group is in a list.
    pub(crate) fn is_listed(&self, group: GroupId) -> bool
        ensures { result ≡ is_marked self.now.listed.items group }
    {
        match self.listed.get(group.index()) {
            Some(mark) => *mark,
            None => false,
        }
    }
}

fn coming<A: Allocator + Copy>(
    alloc: A,
    plan: &Plan<A>,
    origins: &[bool],
) -> Result<Vec<Vec<bool, A>, A>, NoMemory>
    requires { AreOrigins plan.now origins.now }
    ensures { IfOk result (λ marks.
        TellsWhereCallsCome plan.now (comes_by (map (λ m. m.items) marks.items))) }
{
    let mut marks = Vec::with_capacity(alloc, plan.codes())?;
    for index in 0..plan.codes() {
        let reached = reached(alloc, plan, origins, CodeId::of(index))?;
        marks.push_reserved(reached);
    }
    Ok(marks)
}

fn listed<A: Allocator + Copy>(alloc: A, plan: &Plan<A>) -> Result<Vec<bool, A>, NoMemory>
    ensures { IfOk result (λ marks. (g : ℕ) → is_marked marks.items g ≡ is_listed plan.now g) }
{
    let mut marks = vec![in alloc; false; plan.groups()]?;
    for index in 0..plan.routes() {
        match plan.route_at(index) {
            Some((exchange, code)) => mark_all(plan.list(exchange, code), &mut marks),
            None => unreachable!(),
        }
    }
    Ok(marks)
}

/// Marks these groups.
fn mark_all(groups: &[GroupId], marks: &mut [bool])
    requires { AllByRecursion (λ g. g < length marks.old) groups.now }
    ensures long { length marks.new ≡ length marks.old }
    ensures marks { (g : ℕ) → is_marked marks.new g
        ≡ (is_marked marks.old g || list_any (λ h. h == g) groups.now) }
{
    for i in 0..groups.len() {
        marks[groups[i].index()] = true;
    }
}
