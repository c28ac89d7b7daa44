// A plan over the joined network.
ghost use Rattle.std.specs.Prelude.{◌≡◌, ◌++◌, ◌∷◌, [], nat_lt, filter, true, false, IfOk, OnOk};
ghost use Rattle.tx_plan.specs.Rules.{IsPlan};
ghost use Rattle.tx_join.specs.Joined.{exchange_in, code_in, plan_over, routes_over, bars_over, bars_of_code, bars_from};
ghost use Rattle.tx_join.specs.inner.Taken.{takes, taken_routes, taken_bars, has_bar, RoutesDiffer, BarsDiffer};

use crate::naming::{code_in, exchange_in, groups_in, has_both, list_in};
use std::alloc::Allocator;
use tx_plan::{Bars, CodeId, ExchangeId, Pair, Plan, Routes};
use tx_text::NoMemory;

/// A plan over the joined network, with the lists and bars of another plan where it does not have
/// the exchange or the code. The codes from an index on are barred but at home.
pub(crate) fn plan_over<A: Allocator + Copy>(
    alloc: A,
    network: Plan<A>,
    own: &Plan<A>,
    other: &Plan<A>,
    codes: usize,
) -> Result<Plan<A>, NoMemory>
    requires { IsPlan (plan_over network own.now other.now codes) }
    ensures { IfOk result (λ p. p ≡ plan_over network own.now other.now codes) }
{
    match lists_over(alloc, &network, own, other, codes) {
        Ok((routes, bars)) => Ok(network.rerouted(routes, bars)),
        Err(fault) => {
            drop(network);
            Err(fault)
        }
    }
}

/// The routes and the bars.
fn lists_over<A: Allocator + Copy>(
    alloc: A,
    network: &Plan<A>,
    own: &Plan<A>,
    other: &Plan<A>,
    codes: usize,
) -> Result<(Routes<A>, Bars<A>), NoMemory>
    requires routes { RoutesDiffer (routes_over network.now own.now other.now) }
    requires bars { BarsDiffer (bars_over network.now own.now other.now codes) }
    ensures routes { IfOk result (λ l. l.0 ≡ routes_over network.now own.now other.now) }
    ensures bars { IfOk result (λ l. l.1 ≡ bars_over network.now own.now other.now codes) }
{
    let routes = routes_over(alloc, network, own, other)?;
    let bars = bars_over(alloc, network, own, other, codes)?;
    Ok((routes, bars))
}

/// The routes.
fn routes_over<A: Allocator + Copy>(
    alloc: A,
    network: &Plan<A>,
    own: &Plan<A>,
    other: &Plan<A>,
) -> Result<Routes<A>, NoMemory>
    requires { RoutesDiffer (routes_over network.now own.now other.now) }
    ensures { IfOk result (λ routes. routes ≡ routes_over network.now own.now other.now) }
{
    let mut routes = Routes::new(alloc);
    add_routes(alloc, network, own, own, true, &mut routes)?;
    add_routes(alloc, network, own, other, false, &mut routes)?;
    Ok(routes)
}

/// Adds the routes of a plan: all of them, or those for an exchange or a code that another plan
/// does not have.
fn add_routes<A: Allocator + Copy>(
    alloc: A,
    network: &Plan<A>,
    own: &Plan<A>,
    from: &Plan<A>,
    whole: bool,
    routes: &mut Routes<A>,
) -> Result<(), NoMemory>
    requires { RoutesDiffer (routes.old ++ taken_routes network.now own.now from.now whole) }
    ensures { OnOk result (routes.new
        ≡ routes.old ++ taken_routes network.now own.now from.now whole) }
{
    let groups = groups_in(alloc, network, from)?;
    for index in 0..from.routes() {
        match from.route_at(index) {
            Some((exchange, code)) => {
                if takes(own, from, whole, exchange, code) {
                    let pair = pair_in(network, from, exchange, code);
                    routes.add(pair, list_in(&groups, from, exchange, code))?;
                }
            }
            None => unreachable!(),
        }
    }
    Ok(())
}

/// The bars.
fn bars_over<A: Allocator + Copy>(
    alloc: A,
    network: &Plan<A>,
    own: &Plan<A>,
    other: &Plan<A>,
    codes: usize,
) -> Result<Bars<A>, NoMemory>
    requires { BarsDiffer (bars_over network.now own.now other.now codes) }
    ensures { IfOk result (λ bars. bars ≡ bars_over network.now own.now other.now codes) }
{
    let mut bars = Bars::new(alloc);
    add_bars(network, own, own, true, codes, &mut bars)?;
    add_bars(network, own, other, false, codes, &mut bars)?;
    bar_codes(network, codes, &mut bars)?;
    Ok(bars)
}

/// Adds the bars of a plan, likewise, for the codes before an index.
fn add_bars<A: Allocator>(
    network: &Plan<A>,
    own: &Plan<A>,
    from: &Plan<A>,
    whole: bool,
    codes: usize,
    bars: &mut Bars<A>,
) -> Result<(), NoMemory>
    requires { BarsDiffer (bars.old ++ taken_bars network.now own.now from.now whole codes) }
    ensures { OnOk result (bars.new
        ≡ bars.old ++ taken_bars network.now own.now from.now whole codes) }
{
    for index in 0..from.bars() {
        match from.bar_at(index) {
            Some((exchange, code)) => {
                if takes(own, from, whole, exchange, code) {
                    add_bar(pair_in(network, from, exchange, code), codes, bars)?;
                }
            }
            None => unreachable!(),
        }
    }
    Ok(())
}

/// Adds a bar, if it is for a code before an index.
fn add_bar<A: Allocator>(pair: Pair, codes: usize, bars: &mut Bars<A>) -> Result<(), NoMemory>
    requires { nat_lt pair.code codes ≡ true → has_bar bars.old pair ≡ false }
    ensures { OnOk result (bars.new
        ≡ bars.old ++ filter (λ b. nat_lt b.code codes) (pair ∷ [])) }
{
    if pair.code.index() < codes {
        bars.add(pair)?;
    }
    Ok(())
}

/// Whether a list or a bar of a plan is taken: the plan is taken whole, or the other one does not
/// have the exchange or the code.
fn takes<A: Allocator>(
    own: &Plan<A>,
    from: &Plan<A>,
    whole: bool,
    exchange: ExchangeId,
    code: CodeId,
) -> bool
    ensures { result ≡ takes own.now from.now whole exchange code }
{
    whole || !has_both(own, from, exchange, code)
}

/// An exchange and a code of a plan, in the joined network.
fn pair_in<A: Allocator>(
    network: &Plan<A>,
    from: &Plan<A>,
    exchange: ExchangeId,
    code: CodeId,
) -> Pair
    ensures { result ≡ record {
      exchange = exchange_in network.now from.now exchange;
      code = code_in network.now from.now code;
    } }
{
    Pair {
        exchange: exchange_in(network, from, exchange),
        code: code_in(network, from, code),
    }
}

/// Bars the codes from an index on, but at home.
fn bar_codes<A: Allocator>(
    network: &Plan<A>,
    codes: usize,
    bars: &mut Bars<A>,
) -> Result<(), NoMemory>
    requires { BarsDiffer (bars.old ++ bars_from network.now codes) }
    ensures { OnOk result (bars.new ≡ bars.old ++ bars_from network.now codes) }
{
    for index in codes..network.codes() {
        bar_code(network, CodeId::of(index), bars)?;
    }
    Ok(())
}

/// Bars a code, but at home.
fn bar_code<A: Allocator>(
    network: &Plan<A>,
    code: CodeId,
    bars: &mut Bars<A>,
) -> Result<(), NoMemory>
    requires { BarsDiffer (bars.old ++ bars_of_code network.now code) }
    ensures { OnOk result (bars.new ≡ bars.old ++ bars_of_code network.now code) }
{
    for index in 0..network.exchanges() {
        let exchange = ExchangeId::of(index);
        if network.home(code) != exchange {
            bars.add(Pair { exchange, code })?;
        }
    }
    Ok(())
}
