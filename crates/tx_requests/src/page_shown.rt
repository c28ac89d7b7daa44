// The change from an old plan, as a page shows it.
ghost use Rattle.std.specs.Prelude.{◌≡◌, [], string_bytes};
ghost use Rattle.std.specs.Option.{option_map_or};
ghost use Rattle.tx_requests.specs.Page.{IsDateAt, IsDateOf, IsShownChange, IsSameChange};

use crate::page::{Paged, title_of};
use crate::page_change::FoundChange;
use httpdate::HttpDate;
use sha2::{Digest, Sha256};
use std::alloc::Allocator;
use tx_commands::PageRequest;
use tx_files::PlanText;
use tx_page_change::{Change, Outlook};

/// The date and the time of day of a moment, in seconds since 1970, up to the year 9999.
fn date_at(moment: u64) -> Option<[u8; 29]>
    ensures { IsDateAt moment result }
{
    match HttpDate::from_unix_secs(moment) {
        Ok(date) => Some(date.to_bytes()),
        Err(_) => None,
    }
}

/// The same, if there is a moment.
fn date_of(moment: Option<u64>) -> Option<[u8; 29]>
    ensures { IsDateOf moment result }
{
    match moment {
        Some(moment) => date_at(moment),
        None => None,
    }
}

/// The words for the file of the old plan.
fn old_name(request: &PageRequest) -> &[u8]
    ensures { result.now ≡ option_map_or string_bytes request.now.old [] }
{
    match &request.old {
        Some(name) => name.as_bytes(),
        None => &[],
    }
}

/// A change, as a page shows it.
fn change_shown<'a, A: Allocator>(
    request: &'a PageRequest,
    answer: &'a Paged<A>,
    old: &'a PlanText<A>,
    found: &'a FoundChange<A>,
) -> Change<'a, A>
    ensures { IsShownChange request.now answer.now old.now found.now result }
{
    let text = old.text.as_slice();
    Change {
        name: title_of(old_name(request), text),
        digest: Sha256::digest(text),
        date: date_of(request.moment),
        old: Outlook {
            plan: &old.plan,
            grade: &found.outlook.grade,
            outcomes: found.outlook.outcomes.as_slice(),
        },
        new: Outlook {
            plan: &answer.texts.plan.plan,
            grade: &answer.found.grade,
            outcomes: answer.found.outcomes.as_slice(),
        },
        worse: found.worse,
        better: found.better,
        switching: &found.switching,
        by_exchange: request.by_exchange,
    }
}

/// The change, if there is one.
pub(crate) fn shown_change<'a, A: Allocator>(
    request: &'a PageRequest,
    answer: &'a Paged<A>,
) -> Option<Change<'a, A>>
    ensures { IsSameChange request.now answer.now answer.now.texts.old answer.now.change result }
{
    match (&answer.texts.old, &answer.change) {
        (Some(old), Some(found)) => Some(change_shown(request, answer, old, found)),
        (None, _) | (Some(_), None) => None,
    }
}
