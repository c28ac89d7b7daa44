// How far exchanges are from where calls may start.
ghost use Rattle.std.specs.Prelude.{◌≡◌, length, IfOk};

use crate::list_scan::onward;
use crate::routes::CodeNet;
use std::alloc::Allocator;
use tx_plan::ExchangeId;
use tx_text::NoMemory;

/// Of an exchange that was not reached.
const FAR: u16 = u16::MAX;

/// The steps of a shortest walk to each exchange.
pub fn distances_of<A: Allocator + Copy, N: CodeNet>(
    alloc: A,
    net: &N,
) -> Result<Vec<u16, A>, NoMemory>
    ensures { IfOk result (λ d. length d.items ≡ (N.net net.now).exchanges) }
{
    let mut distances = vec![in alloc; FAR; net.exchanges()]?;
    measure(net, &mut distances);
    Ok(distances)
}

/// Measures step by step, from where calls may start, until nothing more is reached.
fn measure<N: CodeNet>(net: &N, distances: &mut [u16])
    requires { length distances.old ≡ (N.net net.now).exchanges }
{
    start(net, distances);
    for steps in 0..FAR {
        if !reach_on(net, steps, distances) {
            return;
        }
    }
}

/// No step leads to where calls may start.
fn start<N: CodeNet>(net: &N, distances: &mut [u16])
    requires { length distances.old ≡ (N.net net.now).exchanges }
{
    for index in 0..net.exchanges() {
        if net.is_origin(net.exchange(index)) {
            distances[index] = 0;
        }
    }
}

/// Reaches the exchanges to which those of this distance lead: whether one was not reached before.
fn reach_on<N: CodeNet>(net: &N, steps: u16, distances: &mut [u16]) -> bool
    requires { length distances.old ≡ (N.net net.now).exchanges }
{
    let mut more = false;
    for index in 0..net.exchanges() {
        if distances[index] == steps && reach_from(net, net.exchange(index), steps, distances) {
            more = true;
        }
    }
    more
}

/// Reaches the exchanges to which one of this distance leads, unless it is the home: whether one
/// was not reached before.
fn reach_from<N: CodeNet>(net: &N, exchange: ExchangeId, steps: u16, distances: &mut [u16]) -> bool
    requires { length distances.old ≡ (N.net net.now).exchanges }
{
    if exchange == net.home() {
        return false;
    }
    let mut more = false;
    let list = net.list(exchange);
    for i in 0..list.len() {
        let (_, to) = onward(net, exchange, list, i);
        if distances[to.index()] == FAR {
            distances[to.index()] = steps.saturating_add(1);
            more = true;
        }
    }
    more
}

/// The steps to an exchange.
pub fn distance(distances: &[u16], exchange: ExchangeId) -> u16 {
    match distances.get(exchange.index()) {
        Some(steps) => *steps,
        None => FAR,
    }
}
