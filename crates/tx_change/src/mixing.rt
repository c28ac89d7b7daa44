// The routes and the bars of a mixture.
ghost use Rattle.std.specs.Prelude.{◌≡◌, ◌++◌, ℕ, Bool, true, false, slice_get, Some, IfOk, filter};
ghost use Rattle.tx_plan.specs.declared.ids.Pair.{Pair as Bar};
ghost use Rattle.tx_plan.specs.Plan.{Route};
ghost use Rattle.tx_plan.specs.Among.{Among};
ghost use Rattle.tx_plan.specs.Mixed.{replaced};
ghost use Rattle.tx_change.specs.inner.Kept.{keeps_route, keeps_bar, kept_alone, has_route_as, has_bar_as};

use std::alloc::Allocator;
use tx_plan::{Bars, CodeId, ExchangeId, Pair, Plan, Routes};
use tx_text::NoMemory;

/// Which lists and bars a mixture has from the new plan. All others it has from the old one.
pub trait Mixing {
    // The exchanges and codes of which it has the new list.
    ghost listed: { Self → ℕ → ℕ → Bool };

    // Those of which it has the new bar, or none as the new plan.
    ghost barred: { Self → ℕ → ℕ → Bool };

    /// Whether it has the new list of an exchange for a code.
    fn has_list(&self, exchange: ExchangeId, code: CodeId) -> bool
        ensures { result ≡ listed self.now exchange code };

    /// Whether it is barred there as the new plan is.
    fn has_bar(&self, exchange: ExchangeId, code: CodeId) -> bool
        ensures { result ≡ barred self.now exchange code };
}

/// The routes and the bars of a plan.
#[derive(Drop)]
pub struct Lists<A: Allocator> {
    pub routes: Routes<A>,
    pub bars: Bars<A>,
}

/// Those of a mixture: the old ones that it has, and then the new ones.
pub fn mixed_lists<A: Allocator + Copy, M: Mixing>(
    alloc: A,
    mixing: &M,
    old: &Plan<A>,
    new: &Plan<A>,
) -> Result<Lists<A>, NoMemory>
    ensures routes { IfOk result (λ l. l.routes ≡ replaced
        (λ r. M.listed mixing.now r.exchange r.code) old.now.routes new.now.routes) }
    ensures bars { IfOk result (λ l. l.bars ≡ replaced
        (λ b. M.barred mixing.now b.exchange b.code) old.now.bars new.now.bars) }
{
    let routes = mixed_routes(alloc, mixing, old, new)?;
    let bars = mixed_bars(alloc, mixing, old, new)?;
    Ok(Lists { routes, bars })
}

/// The routes of a mixture.
fn mixed_routes<A: Allocator + Copy, M: Mixing>(
    alloc: A,
    mixing: &M,
    old: &Plan<A>,
    new: &Plan<A>,
) -> Result<Routes<A>, NoMemory>
    ensures { IfOk result (λ routes. routes ≡ replaced
        (λ r. M.listed mixing.now r.exchange r.code) old.now.routes new.now.routes) }
{
    let mut routes = Routes::new(alloc);
    add_routes(old, mixing, false, &mut routes)?;
    add_routes(new, mixing, true, &mut routes)?;
    Ok(routes)
}

/// Adds those of one plan.
fn add_routes<A: Allocator, M: Mixing>(
    from: &Plan<A>,
    mixing: &M,
    from_new: bool,
    routes: &mut Routes<A>,
) -> Result<(), NoMemory>
    requires { (r : Route) → Among r from.now.routes
        → keeps_route from_new (M.listed mixing.now) r ≡ true → has_route_as r routes.old ≡ false }
    ensures { IfOk result (λ _. routes.new
        ≡ routes.old ++ filter (keeps_route from_new (M.listed mixing.now)) from.now.routes) }
{
    for index in 0..from.routes() {
        add_route(from, mixing, from_new, index, routes)?;
    }
    Ok(())
}

/// Adds the one at an index, if it is in the mixture.
fn add_route<A: Allocator, M: Mixing>(
    from: &Plan<A>,
    mixing: &M,
    from_new: bool,
    index: usize,
    routes: &mut Routes<A>,
) -> Result<(), NoMemory>
    requires { (r : Route) → slice_get from.now.routes index ≡ Some r
        → keeps_route from_new (M.listed mixing.now) r ≡ true → has_route_as r routes.old ≡ false }
    ensures { IfOk result (λ _. routes.new ≡ routes.old
        ++ kept_alone (keeps_route from_new (M.listed mixing.now))
        (slice_get from.now.routes index)) }
{
    match from.route_at(index) {
        Some((exchange, code)) => {
            if mixing.has_list(exchange, code) != from_new {
                return Ok(());
            }
            routes.add(Pair { exchange, code }, from.group_list(exchange, code))
        }
        None => Ok(()),
    }
}

/// The bars of a mixture.
fn mixed_bars<A: Allocator + Copy, M: Mixing>(
    alloc: A,
    mixing: &M,
    old: &Plan<A>,
    new: &Plan<A>,
) -> Result<Bars<A>, NoMemory>
    ensures { IfOk result (λ bars. bars ≡ replaced
        (λ b. M.barred mixing.now b.exchange b.code) old.now.bars new.now.bars) }
{
    let mut bars = Bars::new(alloc);
    add_bars(old, mixing, false, &mut bars)?;
    add_bars(new, mixing, true, &mut bars)?;
    Ok(bars)
}

/// Adds those of one plan.
fn add_bars<A: Allocator, M: Mixing>(
    from: &Plan<A>,
    mixing: &M,
    from_new: bool,
    bars: &mut Bars<A>,
) -> Result<(), NoMemory>
    requires { (b : Bar) → Among b from.now.bars
        → keeps_bar from_new (M.barred mixing.now) b ≡ true → has_bar_as b bars.old ≡ false }
    ensures { IfOk result (λ _. bars.new
        ≡ bars.old ++ filter (keeps_bar from_new (M.barred mixing.now)) from.now.bars) }
{
    for index in 0..from.bars() {
        add_bar(from, mixing, from_new, index, bars)?;
    }
    Ok(())
}

/// Adds the one at an index, if it is in the mixture.
fn add_bar<A: Allocator, M: Mixing>(
    from: &Plan<A>,
    mixing: &M,
    from_new: bool,
    index: usize,
    bars: &mut Bars<A>,
) -> Result<(), NoMemory>
    requires { (b : Bar) → slice_get from.now.bars index ≡ Some b
        → keeps_bar from_new (M.barred mixing.now) b ≡ true → has_bar_as b bars.old ≡ false }
    ensures { IfOk result (λ _. bars.new ≡ bars.old
        ++ kept_alone (keeps_bar from_new (M.barred mixing.now)) (slice_get from.now.bars index)) }
{
    match from.bar_at(index) {
        Some((exchange, code)) => {
            if mixing.has_bar(exchange, code) != from_new {
                return Ok(());
            }
            bars.add(Pair { exchange, code })
        }
        None => Ok(()),
    }
}
