// A route plan and its readers.
ghost use Rattle.std.specs.Prelude.{◌≡◌, ◌≤◌, ◌&&◌, ◌==◌, if◌then◌else◌, nat_lt, Some, None, length, slice_get, IfSome};
ghost use Rattle.std.specs.List.{list_any};
ghost use Rattle.std.specs.Option.{option_map, option_copied};
ghost use Rattle.tx_plan.specs.Plan.{home_of};
ghost use Rattle.tx_plan.specs.Lines.{is_line_at, in_range};
ghost use Rattle.tx_plan.specs.Routes.{route_list, is_barred, is_origin, is_origin_for};
ghost use Rattle.tx_plan.specs.Circuits.{direction_of, count_of, ends_of, other_end, may_seize};
ghost use Rattle.tx_plan.specs.Rules.{IsPlan};
ghost use Rattle.tx_plan.specs.Mixed.{rerouted};
ghost use Rattle.tx_plan.specs.Declaring.{has_route, overlaps, pair_named, exchange_at, code_at};
ghost use Rattle.tx_plan.specs.inner.Tables.{row_of};

use crate::ids::{ByWord, CodeId, Direction, ExchangeId, GroupId, GroupRow, Line, National, Pair};
use crate::names::NameKey;
use crate::range::LineRange;
use crate::routes::{Bars, GroupList, Routes};
use indexmap::{IndexMap, IndexSet};
use std::alloc::{Allocator, Global};
use std::marker::Model;

/// A route plan: exchanges, codes, ranges, groups, routes and bars, each in order of declaration.
/// It obeys the rules of a plan.
///
/// Readers by id answer a foreign id with a default, and none takes memory.
pub struct Plan<A: Allocator = Global> {
    pub(crate) exchanges: IndexSet<NameKey, ByWord, A>,
    pub(crate) codes: IndexMap<NameKey, ExchangeId, ByWord, A>,
    pub(crate) ranges: Vec<LineRange, A>,
    pub(crate) groups: IndexMap<NameKey, GroupRow, ByWord, A>,
    pub(crate) routes: Routes<A>,
    pub(crate) bars: Bars<A>,
}

impl<A: Allocator> Drop for Plan<A> {
    fn drop(self) {
        let Self {
            exchanges,
            codes,
            ranges,
            groups,
            routes,
            bars,
        } = self;
        drop(exchanges);
        drop(codes);
        drop(ranges);
        drop(groups);
        drop(routes);
        drop(bars);
    }
}

impl<A: Allocator> Model for Plan<A> {
    ghost use Rattle.tx_plan.specs.Plan.{Plan};
    ghost use Rattle.tx_plan.specs.Rules.{IsPlan};
    ghost use Rattle.tx_plan.specs.inner.Tables.{plan_of};

    ghost Value = { Plan };

    ghost view = { λ p. plan_of p.exchanges.keys p.codes.entries p.ranges.items p.groups.entries
        p.routes p.bars };

    ghost invariant = { λ p. IsPlan (plan_of p.exchanges.keys p.codes.entries p.ranges.items
        p.groups.entries p.routes p.bars) };
}

/// Counts, and entries by their indexes.
impl<A: Allocator> Plan<A> {
    /// Its lists obey the rules. Does nothing: its callers' proofs name it.
    pub fn rules(&self)
        ensures { IsPlan self.now }
    {
        let _ = &self.exchanges;
    }

    /// Its routes.
    pub fn all_routes(&self) -> &Routes<A>
        ensures { result.now ≡ self.now.routes }
    {
        &self.routes
    }

    /// How many exchanges.
    pub fn exchanges(&self) -> usize
        ensures count { result ≡ length self.now.exchanges }
        ensures few { result ≤ 256 }
        ensures rules { IsPlan self.now }
    {
        self.exchanges.len()
    }

    /// How many codes.
    pub fn codes(&self) -> usize
        ensures count { result ≡ length self.now.codes }
        ensures few { result ≤ 1100 }
        ensures rules { IsPlan self.now }
    {
        self.codes.len()
    }

    /// How many ranges.
    pub fn ranges(&self) -> usize
        ensures count { result ≡ length self.now.ranges }
        ensures few { result ≤ 4096 }
        ensures rules { IsPlan self.now }
    {
        self.ranges.len()
    }

    /// How many groups.
    pub fn groups(&self) -> usize
        ensures count { result ≡ length self.now.groups }
        ensures few { result ≤ 4096 }
        ensures rules { IsPlan self.now }
    {
        self.groups.len()
    }

    /// How many routes.
    pub fn routes(&self) -> usize
        ensures count { result ≡ length self.now.routes }
        ensures rules { IsPlan self.now }
    {
        self.routes.len()
    }

    /// How many bars.
    pub fn bars(&self) -> usize
        ensures count { result ≡ length self.now.bars }
        ensures rules { IsPlan self.now }
    {
        self.bars.len()
    }

    /// The exchange at an index, from 0.
    pub fn exchange_at(&self, index: usize) -> Option<ExchangeId>
        ensures { result ≡ (if nat_lt index (length self.now.exchanges) then Some index else None) }
    {
        if index < self.exchanges.len() {
            Some(ExchangeId::of(index))
        } else {
            None
        }
    }

    /// The code at an index, from 0.
    pub fn code_at(&self, index: usize) -> Option<CodeId>
        ensures { result ≡ (if nat_lt index (length self.now.codes) then Some index else None) }
    {
        if index < self.codes.len() {
            Some(CodeId::of(index))
        } else {
            None
        }
    }

    /// The group at an index, from 0.
    pub fn group_at(&self, index: usize) -> Option<GroupId>
        ensures { result ≡ (if nat_lt index (length self.now.groups) then Some index else None) }
    {
        if index < self.groups.len() {
            Some(GroupId::of(index))
        } else {
            None
        }
    }

    /// The range at an index, from 0.
    pub fn range_at(&self, index: usize) -> Option<LineRange>
        ensures { result ≡ slice_get self.now.ranges index }
    {
        self.ranges.get(index).copied()
    }

    /// The exchange and the code of the route at an index, from 0. `list` has its groups.
    pub fn route_at(&self, index: usize) -> Option<(ExchangeId, CodeId)>
        ensures value { result ≡ option_map (λ r. (r.exchange, r.code))
            (slice_get self.now.routes index) }
        ensures rules { IsPlan self.now }
    {
        let pair = self.routes.pair_at(index)?;
        Some((pair.exchange, pair.code))
    }

    /// The exchange and the code of the bar at an index, from 0.
    pub fn bar_at(&self, index: usize) -> Option<(ExchangeId, CodeId)>
        ensures { result ≡ option_map (λ b. (b.exchange, b.code)) (slice_get self.now.bars index) }
    {
        let pair = self.bars.at(index)?;
        Some((pair.exchange, pair.code))
    }
}

/// Other routes.
impl<A: Allocator> Plan<A> {
    /// The same plan with other routes and bars, with which it obeys the rules. Takes no memory.
    pub fn rerouted(self, routes: Routes<A>, bars: Bars<A>) -> Plan<A>
        requires { IsPlan (rerouted self routes bars) }
        ensures { result ≡ rerouted self routes bars }
    {
        let mut plan = self;
        plan.routes = routes;
        plan.bars = bars;
        plan
    }
}

/// Lines, origins and routes.
impl<A: Allocator> Plan<A> {
    /// The exchange where a code is at home; for a foreign code the id at index 0.
    pub fn home(&self, code: CodeId) -> ExchangeId
        ensures { result ≡ home_of self.now code }
    {
        match self.codes.get_index(code.index()) {
            Some((_, home)) => *home,
            None => ExchangeId::of(0),
        }
    }

    /// The line of a code and a national number, if that lies in a range of the code (ITU-T F.69).
    pub fn line_at(&self, code: CodeId, national: &[u8]) -> Option<Line>
        ensures { result ≡ (if is_line_at self.now code national.now
            then Some (record { code = code; national = national.now }) else None) }
    {
        let line = Line {
            code,
            national: National::read(national)?,
        };
        if self.is_in_range(code, national) {
            Some(line)
        } else {
            None
        }
    }

    /// Whether a national number lies in a range of the code.
    fn is_in_range(&self, code: CodeId, number: &[u8]) -> bool
        ensures { result ≡ list_any (λ r. (r.code == code) && in_range number.now r)
            self.now.ranges }
    {
        self.ranges
            .iter()
            .any(|range| range.code == code && range.has(number))
    }

    /// The groups that the exchange tries for the code, in order; none where no route is declared.
    pub fn list(&self, exchange: ExchangeId, code: CodeId) -> &[GroupId]
        ensures value { result.now ≡ route_list self.now exchange code }
        ensures rules { IsPlan self.now }
    {
        self.routes.list(&Pair { exchange, code })
    }

    /// The same groups as a list of their own.
    pub fn group_list(&self, exchange: ExchangeId, code: CodeId) -> GroupList
        ensures { result.items ≡ route_list self.now exchange code }
    {
        match GroupList::try_from(self.routes.list(&Pair { exchange, code })) {
            Ok(list) => list,
            Err(_) => unreachable!(),
        }
    }

    /// The exchange and the code of two words, if both are declared.
    pub fn pair_named(&self, exchange: &[u8], code: &[u8]) -> Option<Pair>
        ensures pair { result ≡ pair_named self.now exchange.now code.now }
        ensures named { IfSome result (λ x. x ≡ record {
          exchange = exchange_at self.now exchange.now;
          code = code_at self.now code.now;
        }) }
    {
        let exchange = self.exchange_named(exchange)?;
        let code = self.code_named(code)?;
        Some(Pair { exchange, code })
    }

    /// Whether a route is declared for the pair.
    pub(crate) fn has_route(&self, pair: &Pair) -> bool
        ensures { result ≡ has_route self.now pair.now.exchange pair.now.code }
    {
        self.routes.has(pair)
    }

    /// Whether a range of the code shares a number with those from low to high, of one width.
    pub(crate) fn overlaps(&self, code: CodeId, low: &[u8], high: &[u8]) -> bool
        ensures { result ≡ overlaps self.now (Some code) low.now high.now }
    {
        self.ranges
            .iter()
            .any(|range| range.shares(code, low, high))
    }

    /// Whether calls that start at the exchange for the code are not admitted.
    pub fn is_barred(&self, exchange: ExchangeId, code: CodeId) -> bool
        ensures { result ≡ is_barred self.now exchange code }
    {
        self.bars.has(&Pair { exchange, code })
    }

    /// Whether calls may start at the exchange: it is the home of a code that has a range.
    pub fn is_origin(&self, exchange: ExchangeId) -> bool
        ensures { result ≡ is_origin self.now exchange }
    {
        self.ranges
            .iter()
            .any(|range| self.home(range.code) == exchange)
    }

    /// Whether calls for the code may start at the exchange: it is an origin that is not barred for
    /// the code.
    pub fn is_origin_for(&self, exchange: ExchangeId, code: CodeId) -> bool
        ensures { result ≡ is_origin_for self.now exchange code }
    {
        self.is_origin(exchange) && !self.is_barred(exchange, code)
    }
}

/// Groups of circuits.
impl<A: Allocator> Plan<A> {
    /// What is declared of the group beside its name.
    fn row(&self, group: GroupId) -> Option<&GroupRow>
        ensures value { option_copied result ≡ option_map row_of (slice_get self.now.groups group) }
        ensures rules { IsPlan self.now }
    {
        let (_, row) = self.groups.get_index(group.index())?;
        Some(row)
    }

    /// From which ends the group may be seized; `OneWay` for a foreign one.
    pub fn direction(&self, group: GroupId) -> Direction
        ensures { result ≡ direction_of self.now group }
    {
        match self.row(group) {
            Some(row) => row.direction,
            None => Direction::OneWay,
        }
    }

    /// How many circuits the group has, 1 to 240; 0 for a foreign one.
    pub fn group_count(&self, group: GroupId) -> u32
        ensures value { result ≡ count_of self.now group }
        ensures few { result ≤ 240 }
    {
        match self.row(group) {
            Some(row) => u32::from(row.count),
            None => 0,
        }
    }

    /// The ends of the group, the first one first; for a foreign group the id at index 0 twice.
    pub fn ends(&self, group: GroupId) -> (ExchangeId, ExchangeId)
        ensures { result ≡ ends_of self.now group }
    {
        match self.row(group) {
            Some(row) => (row.a, row.b),
            None => (ExchangeId::of(0), ExchangeId::of(0)),
        }
    }

    /// The exchange across the group, if the exchange is an end of it.
    pub fn other_end(&self, group: GroupId, exchange: ExchangeId) -> Option<ExchangeId>
        ensures value { result ≡ other_end self.now group exchange }
        ensures rules { IsPlan self.now }
    {
        let row = self.row(group)?;
        if row.a == exchange {
            Some(row.b)
        } else if row.b == exchange {
            Some(row.a)
        } else {
            None
        }
    }

    /// Whether the exchange may seize the group: its first end may, and of a both-way group the
    /// other end too.
    pub fn may_seize(&self, group: GroupId, exchange: ExchangeId) -> bool
        ensures { result ≡ may_seize self.now group exchange }
    {
        match self.row(group) {
            Some(row) => {
                row.a == exchange || row.direction == Direction::BothWay && row.b == exchange
            }
            None => false,
        }
    }
}
