// What a page is about.
use std::alloc::Allocator;
use tx_page_change::Change;
use tx_plan::{Limits, Plan};
use tx_rank::{Grade, Ranking};
use tx_risk::{Outcome, Risks};
use tx_svg::Picture;

/// A plan, and what was found of it.
#[derive(Drop)]
pub struct Subject<'a, A: Allocator> {
    /// The name of its file, and the SHA-256 of its text.
    pub name: &'a [u8],
    pub digest: [u8; 32],
    /// The version of the program.
    pub version: &'static str,
    pub plan: &'a Plan<A>,
    pub limits: Limits,
    /// The words for groups that are down, and for an exchange of which all groups are.
    pub down: Option<&'a [u8]>,
    pub down_exchange: Option<&'a [u8]>,
    /// A certificate to which the checker said Yes, or what is wrong.
    pub ranking: &'a Ranking<A>,
    pub grade: &'a Grade<A>,
    pub risks: &'a Risks<A>,
    /// The change of an old plan into this one, if one is asked for.
    pub change: Option<Change<'a, A>>,
    /// What each outage cuts off.
    pub outcomes: &'a [Outcome<A>],
    /// A picture of each code that the page shows.
    pub pictures: &'a [Picture<A>],
}
