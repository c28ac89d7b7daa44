// What two plans declare in contradiction, and where their texts do.
ghost use Rattle.std.specs.Prelude.{◌≡◌, ◌≤◌, length};
ghost use Rattle.tx_text.specs.inner.TextLine.{item_of};
ghost use Rattle.tx_join.specs.Contradictions.{kind_word, declared_at, line_declaring, homes_of, contradiction_of};

use std::alloc::Allocator;
use tx_plan::{CodeId, Plan};
use tx_text::{InlineBytes, Lines, TextFault, TextLine, words};

/// What is declared in contradiction.
#[derive(Clone, Copy, Debug, PartialEq, Eq)]
pub enum Kind {
    /// A code, with two homes.
    Code,
    /// A group, with other ends or another direction.
    Group,
}

impl Kind {
    /// The word that begins its line.
    pub fn word(self) -> &'static [u8]
        ensures { result.now ≡ kind_word self }
    {
        match self {
            Kind::Code => b"CODE",
            Kind::Group => b"GROUP",
        }
    }
}

/// A code or a group that two plans declare in contradiction, with the line of each text that does.
#[derive(Clone, Copy, Debug, PartialEq, Eq)]
pub struct Contradiction {
    pub kind: Kind,
    /// The figures of the code, or the name of the group.
    pub name: InlineBytes<8>,
    /// The homes of the code, in the old plan and in the new one.
    pub homes: Option<(InlineBytes<8>, InlineBytes<8>)>,
    pub old_line: u64,
    pub new_line: u64,
}

impl Contradiction {
    /// Of the code or the group of a name, as two texts declare it, with the homes of a code.
    pub fn of(
        kind: Kind,
        name: &[u8],
        homes: Option<(InlineBytes<8>, InlineBytes<8>)>,
        old: &[u8],
        new: &[u8],
    ) -> Contradiction
        requires { length name.now ≤ 8 }
        ensures { result ≡ contradiction_of kind name.now homes old.now new.now }
    {
        Contradiction {
            kind,
            name: InlineBytes::new(name),
            homes,
            old_line: line_declaring(kind.word(), name, old),
            new_line: line_declaring(kind.word(), name, new),
        }
    }
}

/// The homes of a code of the new plan: that in the old plan, if it has the code, and its own.
pub fn homes_of<A: Allocator>(
    old: &Plan<A>,
    new: &Plan<A>,
    code: CodeId,
) -> Option<(InlineBytes<8>, InlineBytes<8>)>
    ensures { result ≡ homes_of old.now new.now code }
{
    let known = old.code_named(new.code_figures(code))?;
    let before = InlineBytes::new(old.exchange_name(old.home(known)));
    let after = InlineBytes::new(new.exchange_name(new.home(code)));
    Some((before, after))
}

/// The number of the first line of a text whose first two words are these; 0 where there is none.
fn line_declaring(word: &[u8], name: &[u8], text: &[u8]) -> u64
    ensures { result ≡ line_declaring word.now name.now text.now }
{
    for item in Lines::new(text) {
        if let Some(number) = declared_at(word, name, item) {
            return number;
        }
    }
    0
}

/// The number of a line, if its first two words are these.
fn declared_at(word: &[u8], name: &[u8], item: Result<TextLine<'_>, TextFault>) -> Option<u64>
    ensures { result ≡ declared_at word.now name.now (item_of item.entry) }
{
    let line = item.ok()?;
    let mut words = words(line.text);
    let first = words.next()?;
    let second = words.next()?;
    if first == word && second == name {
        Some(line.number)
    } else {
        None
    }
}
