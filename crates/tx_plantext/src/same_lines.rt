// Which lines of the text of a plan say what another plan says too, and whether they stand in a
// text.
ghost use Rattle.std.specs.Prelude.{◌≡◌, ◌∷◌, ℕ, List, true, map};
ghost use Rattle.std.specs.Cmp.Lexicographic.{pointwise};
ghost use Rattle.std.specs.Str.{bytes_eq};
ghost use Rattle.tx_plan.specs.Plan.{group_name};
ghost use Rattle.tx_plantext.specs.Revised.{SameLinesStand, StandAmong, says_too, says_header, says_list, says_bar, pair_of};

use crate::text_lines::TextLines;
use std::alloc::Allocator;
use tx_plan::{GroupId, Pair, Plan};
use tx_text::{Words, without_cr, words};

/// Whether each line of a text that says what the plan says too stands in a revised one, in order.
pub fn same_lines_stand<A: Allocator>(plan: &Plan<A>, text: &[u8], revised: &[u8]) -> bool
    ensures { result ≡ true → SameLinesStand text.now plan.now revised.now }
{
    let mut left = TextLines::new(revised);
    let mut lines = TextLines::new(text);
    'lines: while let Some(line) = lines.next() {
        if says_too(plan, line) && !pass(&mut left, line) {
            return false;
        }
    }
    true
}

/// Passes over the lines up to the first one that is this. Whether there is one.
fn pass(lines: &mut TextLines<'_>, line: &[u8]) -> bool
    ensures { result ≡ true → (xs : List (List ℕ))
        → StandAmong xs lines.new → StandAmong (line.now ∷ xs) lines.old }
{
    'lines: while let Some(other) = lines.next() {
        if other == line {
            return true;
        }
    }
    false
}

/// Whether a line of the text of a plan says what this plan says too.
pub fn says_too<A: Allocator>(plan: &Plan<A>, line: &[u8]) -> bool
    ensures { result ≡ says_too plan.now line.now }
{
    let mut words = words(without_cr(line));
    let Some(word) = words.next() else {
        return true;
    };
    if word == b"PLAN".as_slice() {
        says_header(plan, words)
    } else if word == b"ROUTE".as_slice() {
        says_list(plan, words)
    } else if word == b"BAR".as_slice() {
        says_bar(plan, words)
    } else {
        true
    }
}

/// Whether a header of this version can begin the text of the plan.
fn says_header<A: Allocator>(plan: &Plan<A>, words: Words<'_>) -> bool
    ensures { result ≡ says_header plan.now words.entry }
{
    let mut words = words;
    match words.next() {
        Some(version) => plan.bars() == 0 || version == b"2".as_slice(),
        None => false,
    }
}

/// Whether the plan has the list of these words.
fn says_list<A: Allocator>(plan: &Plan<A>, words: Words<'_>) -> bool
    ensures { result ≡ says_list plan.now words.entry }
{
    let mut groups = words;
    let Some(exchange) = groups.next() else {
        return false;
    };
    let Some(code) = groups.next() else {
        return false;
    };
    match plan.pair_named(exchange, code) {
        Some(pair) => are_names(plan, plan.list(pair.exchange, pair.code), groups),
        None => false,
    }
}

/// Whether these words are the names of these groups, in order.
fn are_names<A: Allocator>(plan: &Plan<A>, groups: &[GroupId], words: Words<'_>) -> bool
    ensures { result ≡ pointwise bytes_eq words.entry (map (group_name plan.now) groups.now) }
{
    let mut words = words;
    match (groups, words.next()) {
        ([], None) => true,
        ([group, rest @ ..], Some(word)) => {
            word == plan.group_name(*group) && are_names(plan, rest, words)
        }
        _ => false,
    }
}

/// Whether the plan has the bar of these words.
fn says_bar<A: Allocator>(plan: &Plan<A>, words: Words<'_>) -> bool
    ensures { result ≡ says_bar plan.now words.entry }
{
    match pair_of(plan, words) {
        Some(pair) => plan.is_barred(pair.exchange, pair.code),
        None => false,
    }
}

/// The exchange and the code that the words of a list or a bar begin with, if the plan has both.
pub fn pair_of<A: Allocator>(plan: &Plan<A>, words: Words<'_>) -> Option<Pair>
    ensures { result ≡ pair_of plan.now words.entry }
{
    let mut words = words;
    let exchange = words.next()?;
    let code = words.next()?;
    plan.pair_named(exchange, code)
}
