// A step that leads to each exchange of a walk.
ghost use Rattle.std.specs.Prelude.{◌≡◌, ◌≢◌, ◌<◌, ◌+◌, ℕ, length, false, slice_get, Some, None, IfOk};
ghost use Rattle.tx_rank.specs.inner.Marks.{IsPassed, rank_in};
ghost use Rattle.tx_rank.specs.inner.Links.{AreLinks, LinksAll, LinksBelow, StaysLinked, IsLinked};

use crate::distances::{distance, distances_of};
use crate::list_scan::{onward, rank_at};
use crate::mark::Mark;
use crate::routes::CodeNet;
use std::alloc::Allocator;
use tx_plan::{ExchangeId, GroupId};
use tx_text::NoMemory;

/// The group and the exchange from which a walk comes to an exchange, if it is known.
pub type Link = Option<(GroupId, ExchangeId)>;

/// The link of an exchange.
pub fn link_at(links: &[Link], exchange: ExchangeId) -> Link
    requires { exchange < length links.now }
    ensures { slice_get links.now exchange ≡ Some result }
{
    links[exchange.index()]
}

/// Whether an exchange is nearer to where calls start than the one of a link.
fn is_nearer(distances: &[u16], exchange: ExchangeId, link: Link) -> bool
    ensures { result ≡ false → (s : ℕ × ℕ) × (link ≡ Some s) }
{
    match link {
        Some((_, other)) => distance(distances, exchange) < distance(distances, other),
        None => true,
    }
}

/// Links the exchanges to which an exchange leads, unless nearer ones lead there.
fn link_list<N: CodeNet>(
    net: &N,
    marks: &[Mark],
    distances: &[u16],
    exchange: ExchangeId,
    links: &mut [Link],
)
    requires ranked { (r : ℕ) × (rank_in marks.now exchange ≡ Some r) }
    requires away { exchange ≢ (N.net net.now).home }
    requires long { length links.old ≡ (N.net net.now).exchanges }
    requires links { AreLinks (N.net net.now) (rank_in marks.now) links.old }
    ensures links { AreLinks (N.net net.now) (rank_in marks.now) links.new }
    ensures stays { StaysLinked links.old links.new }
    ensures all { LinksAll (N.net net.now) links.new exchange ((N.net net.now).list exchange) }
{
    let list = net.list(exchange);
    for i in 0..list.len() {
        let (group, to) = onward(net, exchange, list, i);
        if !is_nearer(distances, exchange, link_at(links, to)) {
            continue;
        }
        links[to.index()] = Some((group, exchange));
    }
}

/// Links the exchanges to which the exchange at an index leads.
fn link_from<N: CodeNet>(
    net: &N,
    marks: &[Mark],
    distances: &[u16],
    index: usize,
    links: &mut [Link],
)
    requires index { index < (N.net net.now).exchanges }
    requires marks { length marks.now ≡ (N.net net.now).exchanges }
    requires long { length links.old ≡ (N.net net.now).exchanges }
    requires links { AreLinks (N.net net.now) (rank_in marks.now) links.old }
    requires below { LinksBelow (N.net net.now) (rank_in marks.now) links.old index }
    ensures links { AreLinks (N.net net.now) (rank_in marks.now) links.new }
    ensures below { LinksBelow (N.net net.now) (rank_in marks.now) links.new (index + 1) }
{
    let exchange = net.exchange(index);
    if exchange == net.home() {
        return;
    }
    if rank_at(marks, exchange).is_some() {
        link_list(net, marks, distances, exchange, links);
    }
}

/// A link of each exchange to which another one leads on a walk: the nearest one, so that the links
/// lead back by a shortest walk.
pub fn links_of<A: Allocator + Copy, N: CodeNet>(
    alloc: A,
    net: &N,
    marks: &[Mark],
) -> Result<Vec<Link, A>, NoMemory>
    requires { IsPassed (N.net net.now) marks.now }
    ensures { IfOk result (λ links. IsLinked (N.net net.now) (rank_in marks.now) links.items) }
{
    let distances = distances_of(alloc, net)?;
    let mut links = vec![in alloc; None; net.exchanges()]?;
    for index in 0..net.exchanges() {
        link_from(net, marks, &distances, index, &mut links);
    }
    Ok(links)
}
