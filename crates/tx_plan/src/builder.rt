// What makes a plan, one declaration after another.
ghost use Rattle.std.specs.Prelude.{◌≡◌};
ghost use Rattle.tx_plan.specs.Plan.{no_plan};
ghost use Rattle.tx_plan.specs.Declaring.{Declares, first_true, exchange_refusals, with_exchange, code_refusals, with_code, lines_refusals, with_lines, group_refusals, with_group, route_refusals, with_route, bar_refusals, with_bar};

use crate::entries::{
    bar_entry, code_entry, exchange_entry, group_entry, range_entry, route_entry,
};
use crate::ids::{ByWord, Direction};
use crate::plan::Plan;
use crate::refusal::PlanRefusal;
use crate::routes::{Bars, Routes};
use indexmap::{IndexMap, IndexSet};
use std::alloc::{Allocator, Global};
use std::marker::Model;
use tx_text::Words;

/// A plan in the making. What it declared so far obeys the rules of a plan.
///
/// Each declaration appends one entry to one list, or changes nothing and reports the first refusal
/// in the order of `PlanRefusal`. Names are declared before use.
#[derive(Drop)]
pub struct PlanBuilder<A: Allocator = Global> {
    plan: Plan<A>,
}

impl<A: Allocator> Model for PlanBuilder<A> {
    ghost use Rattle.tx_plan.specs.Plan.{Plan};

    ghost Value = { Plan };

    ghost view = { λ b. b.plan };
}

impl<A: Allocator + Copy> PlanBuilder<A> {
    /// Nothing declared. Takes no memory.
    pub fn new(alloc: A) -> Self
        ensures { result ≡ no_plan }
    {
        PlanBuilder {
            plan: Plan {
                exchanges: IndexSet::with_hasher(alloc, ByWord),
                codes: IndexMap::with_hasher(alloc, ByWord),
                ranges: Vec::new(alloc),
                groups: IndexMap::with_hasher(alloc, ByWord),
                routes: Routes::new(alloc),
                bars: Bars::new(alloc),
            },
        }
    }
}

impl<A: Allocator> PlanBuilder<A> {
    /// Declares an exchange by its name. Refused: `BadName`, `Duplicate`, `TooMany` after 256
    /// exchanges, `NoMemory`.
    pub fn exchange(&mut self, name: &[u8]) -> Result<(), PlanRefusal>
        ensures { Declares (first_true (exchange_refusals self.old name.now)) self.old
            (with_exchange self.old name.now) self.new result }
    {
        let plan = &mut self.plan;
        let entry = exchange_entry(plan, name)?;
        plan.exchanges.insert(entry)?;
        Ok(())
    }

    /// Declares a destination code (ITU-T F.69) of two or three figures, with the exchange where it
    /// is at home. Refused: `BadName`, `BadCode`, `Duplicate`, `Unknown`, `NoMemory`.
    pub fn code(&mut self, code: &[u8], home: &[u8]) -> Result<(), PlanRefusal>
        ensures { Declares (first_true (code_refusals self.old code.now home.now)) self.old
            (with_code self.old code.now home.now) self.new result }
    {
        let plan = &mut self.plan;
        let (figures, home) = code_entry(plan, code, home)?;
        plan.codes.insert(figures, home)?;
        Ok(())
    }

    /// Declares subscribers' lines: the national numbers of a code from low to high, both in it.
    /// Refused: `BadCode`, `BadNumber`, `Unknown`, `RangeOrder`, `Overlap`, `TooMany` after 4,096
    /// ranges, `NoMemory`.
    pub fn lines(&mut self, code: &[u8], low: &[u8], high: &[u8]) -> Result<(), PlanRefusal>
        ensures { Declares (first_true (lines_refusals self.old code.now low.now high.now)) self.old
            (with_lines self.old code.now low.now high.now) self.new result }
    {
        let plan = &mut self.plan;
        let range = range_entry(plan, code, low, high)?;
        plan.ranges.push(range)?;
        Ok(())
    }

    /// Declares a group of 1 to 240 circuits, with `a` as its first end and `b` as the other.
    /// Refused: `BadName`, `BadNumber`, `Duplicate`, `Unknown`, `SameEnds`, `TooMany` after 4,096
    /// groups, `NoMemory`.
    pub fn group(
        &mut self,
        name: &[u8],
        a: &[u8],
        b: &[u8],
        direction: Direction,
        count: u32,
    ) -> Result<(), PlanRefusal>
        ensures { Declares (first_true (group_refusals self.old name.now a.now b.now count))
            self.old (with_group self.old name.now a.now b.now direction count) self.new result }
    {
        let plan = &mut self.plan;
        let (key, row) = group_entry(plan, name, a, b, direction, count)?;
        plan.groups.insert(key, row)?;
        Ok(())
    }

    /// Declares the list of an exchange for a code: 1 to 16 groups, in the order in which it tries
    /// them. Refused: `WrongCount`, `BadName`, `BadCode`, `Duplicate`, `Unknown`, `NotOutgoing`,
    /// `RepeatedGroup`, `RouteAtHome`, `TooMany`, `NoMemory`.
    pub fn route(
        &mut self,
        exchange: &[u8],
        code: &[u8],
        groups: Words<'_>,
    ) -> Result<(), PlanRefusal>
        ensures { Declares (first_true (route_refusals self.old exchange.now code.now groups.entry))
            self.old (with_route self.old exchange.now code.now groups.entry) self.new result }
    {
        let plan = &mut self.plan;
        let (pair, list) = route_entry(plan, exchange, code, groups)?;
        plan.routes.add(pair, list)?;
        Ok(())
    }

    /// Bars calls that start at an exchange for a code. Refused: `BadName`, `BadCode`, `Duplicate`,
    /// `Unknown`, `BarAtHome`, `NoMemory`.
    pub fn bar(&mut self, exchange: &[u8], code: &[u8]) -> Result<(), PlanRefusal>
        ensures { Declares (first_true (bar_refusals self.old exchange.now code.now)) self.old
            (with_bar self.old exchange.now code.now) self.new result }
    {
        let plan = &mut self.plan;
        let pair = bar_entry(plan, exchange, code)?;
        plan.bars.add(pair)?;
        Ok(())
    }

    /// What was declared so far.
    pub fn plan(&self) -> &Plan<A>
        ensures { result.now ≡ self.now }
    {
        &self.plan
    }

    /// The plan that was made. Takes no memory.
    pub fn finish(self) -> Plan<A>
        ensures { result ≡ self }
    {
        self.plan
    }
}
