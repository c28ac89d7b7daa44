// Tests of the words of a line.
ghost use Rattle.std.specs.Prelude.{◌≡◌, find, option_map};
ghost use Rattle.tx_text.specs.Words.{is_name};
ghost use Rattle.tx_plan.specs.Declaring.{has_exchange, has_code, has_group, is_not_outgoing};
ghost use Rattle.tx_lint.specs.AtFault.{first_not, first_again};

use std::alloc::Allocator;
use tx_plan::{Pair, Plan};
use tx_text::{Words, is_name};

/// Whether an exchange of the name was declared.
#[tactic(auto, using(tx_plan::proofs::Lists::found_any))]
pub(crate) fn is_exchange<A: Allocator>(plan: &Plan<A>, name: &[u8]) -> bool
    ensures { result ≡ has_exchange plan.now name.now }
{
    plan.exchange_named(name).is_some()
}

/// Whether a code of the figures was declared.
#[tactic(auto, using(tx_plan::proofs::Lists::found_any))]
pub(crate) fn is_code<A: Allocator>(plan: &Plan<A>, figures: &[u8]) -> bool
    ensures { result ≡ has_code plan.now figures.now }
{
    plan.code_named(figures).is_some()
}

/// Whether a group of the name was declared.
#[tactic(auto, using(tx_plan::proofs::Lists::found_any))]
fn is_group<A: Allocator>(plan: &Plan<A>, name: &[u8]) -> bool
    ensures { result ≡ has_group plan.now name.now }
{
    plan.group_named(name).is_some()
}

/// Whether the word is the name of a group that the pair's exchange may not seize.
fn is_not_outgoing<A: Allocator>(plan: &Plan<A>, pair: &Option<Pair>, group: &[u8]) -> bool
    ensures { result ≡ is_not_outgoing plan.now pair.now group.now }
{
    match (pair, plan.group_named(group)) {
        (Some(pair), Some(group)) => !plan.may_seize(group, pair.exchange),
        _ => false,
    }
}

/// The first of the words that is no name.
pub(crate) fn first_no_name<'t>(mut words: Words<'t>) -> Option<&'t [u8]>
    ensures { option_map (λ w. w.now) result ≡ first_not is_name words.entry }
{
    words.find(|word| !is_name(word))
}

/// The first of the words that is the name of no group.
pub(crate) fn first_unknown_group<'t, A: Allocator>(
    plan: &Plan<A>,
    mut words: Words<'t>,
) -> Option<&'t [u8]>
    ensures { option_map (λ w. w.now) result ≡ first_not (has_group plan.now) words.entry }
{
    words.find(|word| !is_group(plan, word))
}

/// The first of the words that is the name of a group that the pair's exchange may not seize.
pub(crate) fn first_closed<'t, A: Allocator>(
    plan: &Plan<A>,
    pair: &Option<Pair>,
    mut words: Words<'t>,
) -> Option<&'t [u8]>
    ensures { option_map (λ w. w.now) result
        ≡ find (is_not_outgoing plan.now pair.now) words.entry }
{
    words.find(|word| is_not_outgoing(plan, pair, word))
}

/// The first of the words that comes again.
pub(crate) fn first_again<'t>(mut words: Words<'t>) -> Option<&'t [u8]>
    ensures { option_map (λ w. w.now) result ≡ first_again words.entry }
{
    while let Some(word) = words.next() {
        if words.contains(word) {
            return Some(word);
        }
    }
    None
}
