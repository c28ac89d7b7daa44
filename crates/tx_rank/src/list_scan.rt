// A look at the list of an exchange.
ghost use Rattle.std.specs.Prelude.{◌≡◌, ◌<◌, ◌≤◌, ◌⊎◌, List, length, slice_get, Some};
ghost use Rattle.tx_rank.specs.declared.mark.Mark.{Mark};
ghost use Rattle.tx_rank.specs.inner.Marks.{IsLook, IsTried, rank_in};

use crate::mark::Mark;
use crate::routes::CodeNet;
use tx_plan::{ExchangeId, GroupId};

/// A group leads to an exchange without a rank, or all lead to ranks, of which this is the
/// greatest.
#[derive(Clone, Copy)]
pub enum Look {
    Onward(GroupId, ExchangeId),
    Settled(u16),
}

/// The list of an exchange, how many of its first groups were found to lead to ranks, and the
/// greatest of these ranks.
#[derive(Clone, Copy)]
pub struct Tried<'a> {
    pub list: &'a [GroupId],
    pub count: usize,
    pub top: u16,
}

/// The list of an exchange, where no group was tried yet.
pub fn untried<N: CodeNet>(net: &N, exchange: ExchangeId) -> Tried<'_>
    ensures { (marks : List Mark) → IsTried (N.net net.now) marks exchange result }
{
    Tried {
        list: net.list(exchange),
        count: 0,
        top: 0,
    }
}

/// The rank of an exchange, if it has one.
pub fn rank_at(marks: &[Mark], exchange: ExchangeId) -> Option<u16>
    requires { exchange < length marks.now }
    ensures { result ≡ rank_in marks.now exchange }
{
    match marks[exchange.index()] {
        Mark::Ranked(rank) => Some(rank),
        _ => None,
    }
}

/// The group at an index of an exchange's list, and where it leads.
pub fn onward<N: CodeNet>(
    net: &N,
    exchange: ExchangeId,
    list: &[GroupId],
    index: usize,
) -> (GroupId, ExchangeId)
    requires list { list.now ≡ (N.net net.now).list exchange }
    requires index { index < length list.now }
    ensures at { slice_get ((N.net net.now).list exchange) index ≡ Some result.0 }
    ensures leads { (N.net net.now).far result.0 exchange ≡ Some result.1 }
    ensures within { result.1 < (N.net net.now).exchanges }
{
    let group = list[index];
    (group, net.far(group, exchange))
}

/// The greater of two ranks.
fn greater(a: u16, b: u16) -> u16
    ensures first { a ≤ result }
    ensures second { b ≤ result }
    ensures either { (result ≡ a) ⊎ (result ≡ b) }
{
    if a < b { b } else { a }
}

/// Looks at the groups of an exchange that were not tried yet.
pub fn look_on<N: CodeNet>(
    net: &N,
    marks: &[Mark],
    exchange: ExchangeId,
    tried: &mut Tried<'_>,
) -> Look
    requires long { length marks.now ≡ (N.net net.now).exchanges }
    requires tried { IsTried (N.net net.now) marks.now exchange tried.old }
    ensures look { IsLook (N.net net.now) marks.now exchange result }
    ensures tried { IsTried (N.net net.now) marks.now exchange tried.new }
{
    let list = tried.list;
    let mut top = tried.top;
    for i in tried.count..list.len() {
        let (group, to) = onward(net, exchange, list, i);
        match rank_at(marks, to) {
            Some(rank) => top = greater(top, rank),
            None => {
                tried.count = i;
                tried.top = top;
                return Look::Onward(group, to);
            }
        }
    }
    Look::Settled(top)
}
