// A name that was asked for and that a plan does not have, and the one that was probably meant.
ghost use Rattle.std.specs.Prelude.{◌≡◌, ◌<◌, ◌≤◌, length, get_or, [], IfOk};
ghost use Rattle.std.specs.List.{find};
ghost use Rattle.tx_files.specs.Missing.{named_word, names_of, is_within, nearest, missing};

use std::alloc::Allocator;
use strsim::generic_levenshtein;
use tx_plan::{CodeId, ExchangeId, GroupId, Plan};
use tx_text::{InlineBytes, NoMemory};

/// What a name that is asked for is to name.
#[derive(Clone, Copy, Debug, PartialEq, Eq)]
pub enum Named {
    Exchange,
    Code,
    Group,
    ExchangeOrGroup,
}

/// A name that was asked for and that the plan does not have.
#[derive(Clone, Copy, Debug, PartialEq, Eq)]
pub struct Missing {
    pub named: Named,
    /// Which of the names that were asked for it is, counted from 0.
    pub place: usize,
    /// The name of the plan that was probably meant.
    pub near: Option<InlineBytes<8>>,
}

impl Named {
    /// It in words.
    pub fn word(self) -> &'static [u8]
        ensures { result.now ≡ named_word self }
    {
        match self {
            Named::Exchange => b"exchange",
            Named::Code => b"code",
            Named::Group => b"group",
            Named::ExchangeOrGroup => b"exchange or group",
        }
    }

    /// How many names the plan has of it.
    fn count<A: Allocator>(self, plan: &Plan<A>) -> usize
        ensures { result ≡ length (names_of plan.now self) }
    {
        match self {
            Named::Exchange => plan.exchanges(),
            Named::Code => plan.codes(),
            Named::Group => plan.groups(),
            Named::ExchangeOrGroup => plan.exchanges() + plan.groups(),
        }
    }

    /// One of them, by its index.
    fn name_at<A: Allocator>(self, plan: &Plan<A>, index: usize) -> &[u8]
        requires { index < length (names_of plan.now self) }
        ensures value { result.now ≡ get_or (names_of plan.now self) index [] }
        ensures width { length result.now ≤ 8 }
    {
        plan.rules();
        match self {
            Named::Exchange => plan.exchange_name(ExchangeId::of(index)),
            Named::Code => plan.code_figures(CodeId::of(index)),
            Named::Group => plan.group_name(GroupId::of(index)),
            Named::ExchangeOrGroup => match index.checked_sub(plan.exchanges()) {
                Some(group) => plan.group_name(GroupId::of(group)),
                None => plan.exchange_name(ExchangeId::of(index)),
            },
        }
    }
}

impl Missing {
    /// What is told of a name that the plan does not have.
    pub(crate) fn of<A: Allocator + Copy>(
        alloc: A,
        plan: &Plan<A>,
        named: Named,
        place: usize,
        word: &[u8],
    ) -> Result<Missing, NoMemory>
        ensures { IfOk result (λ m. m ≡ missing plan.now named place word.now) }
    {
        let near = nearest(alloc, plan, named, word)?;
        Ok(Missing { named, place, near })
    }
}

/// The name of the plan that is nearest to a word, if one is near.
fn nearest<A: Allocator + Copy>(
    alloc: A,
    plan: &Plan<A>,
    named: Named,
    word: &[u8],
) -> Result<Option<InlineBytes<8>>, NoMemory>
    ensures { IfOk result (λ near. near ≡ nearest word.now (names_of plan.now named)) }
{
    match word.len() {
        3..=4 => first_within(alloc, plan, named, 1, word),
        5..=10 => match first_within(alloc, plan, named, 1, word)? {
            None => first_within(alloc, plan, named, 2, word),
            near => Ok(near),
        },
        _ => Ok(None),
    }
}

/// The first name to which so few edits lead from a word.
fn first_within<A: Allocator + Copy>(
    alloc: A,
    plan: &Plan<A>,
    named: Named,
    most: usize,
    word: &[u8],
) -> Result<Option<InlineBytes<8>>, NoMemory>
    ensures { IfOk result (λ near. near
        ≡ find (is_within most word.now) (names_of plan.now named)) }
{
    for index in 0..named.count(plan) {
        let name = named.name_at(plan, index);
        if generic_levenshtein(alloc, word, name)? <= most {
            return Ok(Some(InlineBytes::new(name)));
        }
    }
    Ok(None)
}
