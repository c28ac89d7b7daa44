// The boxes in the picture of a code.
ghost use Rattle.std.specs.Prelude.{◌<◌};

use crate::picture::Picture;
use crate::spot::{LEFT, TALL, TOP};
use std::alloc::Allocator;
use tx_plan::{ExchangeId, Plan};

/// From one box to the next, of the exchanges where no calls come.
const ASIDE: u64 = 104;

const BELOW: u64 = 28;

/// What an exchange is in a picture.
#[derive(Clone, Copy)]
pub(crate) enum Kind {
    /// The home of the code.
    Home,
    /// Calls for the code come there.
    Passed,
    /// No call for the code comes there.
    Aside,
}

/// A box: whose it is, where, and how high.
#[derive(Clone, Copy)]
pub(crate) struct Frame {
    pub kind: Kind,
    pub left: u64,
    pub top: u64,
    pub high: u64,
}

/// How many boxes of exchanges without calls stand side by side.
fn boxes_aside<A: Allocator>(picture: &Picture<A>) -> u64
    ensures { 0 < result }
{
    (picture.right(0) / ASIDE).max(1)
}

/// How many exchanges have no place in the picture, of those before an index.
fn count_aside<A: Allocator>(picture: &Picture<A>, before: usize) -> u64 {
    let mut count = 0u64;
    for index in 0..before.min(65536) {
        if picture.spot(ExchangeId::of(index)).is_none() {
            count = count.saturating_add(1);
        }
    }
    count
}

/// How high a picture is.
pub(crate) fn picture_height<A: Allocator>(plan: &Plan<A>, picture: &Picture<A>) -> u64 {
    let aside = count_aside(picture, plan.exchanges());
    let high = TOP + u64::from(picture.high) + 4;
    if aside == 0 {
        high
    } else {
        let rows = (aside - 1) / boxes_aside(picture) + 1;
        high.saturating_add(rows.saturating_mul(BELOW))
            .saturating_add(24)
    }
}

/// Where the box of an exchange is.
pub(crate) fn frame_of<A: Allocator>(
    plan: &Plan<A>,
    picture: &Picture<A>,
    exchange: ExchangeId,
) -> Frame {
    if exchange == plan.home(picture.code) {
        return Frame {
            kind: Kind::Home,
            left: picture.left(0),
            top: TOP,
            high: u64::from(picture.high),
        };
    }
    match picture.spot(exchange) {
        Some(spot) => Frame {
            kind: Kind::Passed,
            left: picture.left(spot.column),
            top: (TOP + u64::from(spot.middle)).saturating_sub(TALL / 2),
            high: TALL,
        },
        None => {
            let aside = count_aside(picture, exchange.index());
            let row = boxes_aside(picture);
            Frame {
                kind: Kind::Aside,
                left: LEFT.saturating_add((aside % row).saturating_mul(ASIDE)),
                top: (TOP + u64::from(picture.high) + 24).saturating_add(
                    (aside / row).saturating_mul(BELOW),
                ),
                high: TALL,
            }
        }
    }
}
