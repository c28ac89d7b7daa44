// The ids of what a plan lists, the circuits and lines that these give, and how they are hashed.
ghost use Rattle.std.specs.Prelude.{◌≡◌, ◌+◌, ◌*◌, ◌<◌, ◌≤◌, true, length, if◌then◌else◌, Some, None, slice_index};
ghost use Rattle.tx_text.specs.inner.Padded.{padded_to};
ghost use Rattle.tx_plan.specs.Numbers.{is_national, at_most};
ghost use Rattle.tx_plan.specs.inner.Hashing.{start, hasher_after, spread, first_word};

use std::hash::{BuildHasher, Hash, Hasher};
use std::marker::Model;
use tx_text::{InlineBytes, are_figures};

/// An exchange of a plan, by its index. An id is foreign to a plan that has no such index.
#[derive(Clone, Copy, PartialEq, Eq, Hash)]
pub struct ExchangeId {
    index: u16,
}

impl Model for ExchangeId {
    ghost use Rattle.std.specs.Prelude.{ℕ};

    ghost Value = { ℕ };

    ghost view = { λ e. e.index };

    ghost inverse = { λ n. record { index = n } };
}

impl ExchangeId {
    /// The exchange at an index.
    pub fn of(index: usize) -> ExchangeId
        requires { index < 65536 }
        ensures { result ≡ index }
    {
        ExchangeId {
            index: index as u16,
        }
    }

    /// Its index, from 0, in the order of declaration.
    pub fn index(self) -> usize
        ensures { result ≡ self }
    {
        usize::from(self.index)
    }
}

/// A destination code of a plan, by its index. An id is foreign to a plan that has no such index.
#[derive(Clone, Copy, PartialEq, Eq, Hash)]
pub struct CodeId {
    index: u16,
}

impl Model for CodeId {
    ghost use Rattle.std.specs.Prelude.{ℕ};

    ghost Value = { ℕ };

    ghost view = { λ e. e.index };

    ghost inverse = { λ n. record { index = n } };
}

impl CodeId {
    /// The code at an index.
    pub fn of(index: usize) -> CodeId
        requires { index < 65536 }
        ensures { result ≡ index }
    {
        CodeId {
            index: index as u16,
        }
    }

    /// Its index, from 0, in the order of declaration.
    pub fn index(self) -> usize
        ensures { result ≡ self }
    {
        usize::from(self.index)
    }
}

/// A group of circuits of a plan, by its index. An id is foreign to a plan that has no such index.
#[derive(Clone, Copy, Default, PartialEq, Eq, Hash)]
pub struct GroupId {
    index: u16,
}

impl Model for GroupId {
    ghost use Rattle.std.specs.Prelude.{ℕ};

    ghost Value = { ℕ };

    ghost view = { λ e. e.index };

    ghost inverse = { λ n. record { index = n } };
}

impl GroupId {
    /// The group at an index.
    pub fn of(index: usize) -> GroupId
        requires { index < 65536 }
        ensures { result ≡ index }
    {
        GroupId {
            index: index as u16,
        }
    }

    /// Its index, from 0, in the order of declaration.
    pub fn index(self) -> usize
        ensures { result ≡ self }
    {
        usize::from(self.index)
    }
}

/// An exchange and a code: what routes and bars are declared for.
#[derive(Clone, Copy, PartialEq, Eq)]
pub struct Pair {
    pub exchange: ExchangeId,
    pub code: CodeId,
}

/// All in one word: an exchange has an index below 256, so the pairs of a plan are numbers that
/// follow one another. In two words the codes of an exchange come to slots that do, and such rows
/// of two exchanges overlap.
impl Hash for Pair {
    ghost use Rattle.std.specs.Hash as fed;
    ghost use Rattle.std.proofs.Common.{ap};
    ghost use Rattle.tx_plan.specs.inner.PairLaws.{same_pair-is};

    ghost hash_input = { λ p. fed.u32 (256 * p.code + p.exchange) };

    ghost respects_eq = { λ p q h. ap (λ r. fed.u32 (256 * r.code + r.exchange))
        (same_pair-is p q h) };

    fn hash<H: Hasher>(&self, state: &mut H) {
        state.write_u32(in_one_word(self.exchange.index, self.code.index));
    }
}

/// The indexes of a pair as one number.
fn in_one_word(exchange: u16, code: u16) -> u32
    ensures { result ≡ 256 * code + exchange }
{
    256 * u32::from(code) + u32::from(exchange)
}

/// From which ends the circuits of a group may be seized.
#[derive(Clone, Copy, PartialEq, Eq)]
pub enum Direction {
    /// From the first end only.
    OneWay,
    /// From both ends.
    BothWay,
}

/// What is declared of the group of a name.
#[derive(Clone, Copy)]
pub(crate) struct GroupRow {
    pub a: ExchangeId,
    pub b: ExchangeId,
    pub direction: Direction,
    /// 1 to 240.
    pub count: u8,
}

/// A circuit: its group, and its number in it. The circuits of a plan have the numbers from 1 to
/// the group's count, at most 240; any other is foreign.
#[derive(Clone, Copy, PartialEq, Eq)]
pub struct Circuit {
    pub group: GroupId,
    pub number: u32,
}

/// A national number: 1 to 9 figures. Leading zeros count.
#[derive(Clone, Copy, PartialEq, Eq)]
pub struct National {
    figures: InlineBytes<9>,
}

impl Model for National {
    ghost use Rattle.std.specs.Prelude.{ℕ, List};

    ghost Value = { List ℕ };

    ghost view = { λ n. n.figures };

    ghost use Rattle.std.specs.Prelude.{◌≡◌, true};
    ghost use Rattle.tx_plan.specs.Numbers.{is_national};

    ghost invariant = { λ n. is_national n.figures ≡ true };

    ghost inverse = { λ t. record { figures = t } };
}

impl National {
    /// The number that the text spells, if it is 1 to 9 figures.
    pub fn read(text: &[u8]) -> Option<National>
        ensures { result ≡ (if is_national text.now then Some text.now else None) }
    {
        if !are_figures(text, 1, 9) {
            return None;
        }
        let figures = InlineBytes::new(text);
        Some(National { figures })
    }

    /// Its figures.
    pub fn bytes(&self) -> &[u8]
        ensures value { result.now ≡ self.now }
        ensures width { length result.now ≤ 9 }
        ensures figures { is_national self.now ≡ true }
    {
        self.figures.bytes()
    }
}

/// A subscriber's line: a destination code and the national number after it (ITU-T F.69).
#[derive(Clone, Copy)]
pub struct Line {
    pub code: CodeId,
    pub national: National,
}

impl PartialEq for Line {
    ghost use Rattle.std.specs.Cmp.{partial_equiv_from_equiv};
    ghost use Rattle.tx_plan.specs.Orders.{same_line};
    ghost use Rattle.tx_plan.specs.inner.LineLaws.{same_line_equiv};

    ghost eq = { same_line };

    ghost laws = { partial_equiv_from_equiv same_line_equiv };

    fn eq(&self, other: &Line) -> bool {
        self.code == other.code && self.national == other.national
    }
}

impl Eq for Line {
    ghost use Rattle.tx_plan.specs.inner.LineLaws.{same_line_equiv};

    ghost laws = { same_line_equiv };
}

impl Hash for Line {
    ghost use Rattle.std.proofs.Common.{ap};
    ghost use Rattle.tx_plan.specs.inner.LineLaws.{same_line-is, line_bytes};

    ghost hash_input = { line_bytes };

    ghost respects_eq = { λ l m h. ap line_bytes (same_line-is l m h) };

    fn hash<H: Hasher>(&self, state: &mut H) {
        state.write_u16(self.code.index);
        state.write(self.national.figures.padded());
    }
}

/// Whether the one text of figures is not above the other, figure by figure.
pub fn at_most(low: &[u8], high: &[u8]) -> bool
    ensures { result ≡ at_most low.now high.now }
{
    low.cmp(high).is_le()
}

const MULTIPLIER: u64 = 0x9E37_79B9_7F4A_7C15;

/// Hashes the keys of a map word by word. The lower bits, by which a map finds a slot, are those
/// above the lower half of a product: each bit of a key reaches them, and numbers that follow one
/// another come to slots that do. The upper eight of 32, by which it distinguishes the keys of one
/// slot, are of the lower half too.
#[derive(Clone, Copy)]
pub struct ByWord;

/// Joins the bytes of a name, of a pair, of a line or of a number to one number, a word at a time:
/// such a text has nine bytes at most.
#[derive(Clone, Copy)]
pub struct WordHasher {
    word: u64,
}

impl BuildHasher for ByWord {
    type Hasher = WordHasher;

    ghost build_hasher = { λ _. start };

    fn build_hasher(&self) -> WordHasher {
        WordHasher { word: 0 }
    }
}

/// The first eight bytes as a number, or four or two that are all.
fn first_word(bytes: &[u8]) -> u64
    ensures { result ≡ first_word bytes.now }
{
    match bytes {
        [a, b, c, d, e, f, g, h, ..] => u64::from_le_bytes([*a, *b, *c, *d, *e, *f, *g, *h]),
        [a, b, c, d] => u64::from(u32::from_le_bytes([*a, *b, *c, *d])),
        [a, b] => u64::from(u16::from_le_bytes([*a, *b])),
        _ => 0,
    }
}

/// The ninth byte, if there is one.
fn ninth(bytes: &[u8]) -> u64
    ensures { result ≡ slice_index bytes.now 8 }
{
    match bytes {
        [_, _, _, _, _, _, _, _, byte, ..] => u64::from(*byte),
        _ => 0,
    }
}

impl Hasher for WordHasher {
    ghost write = { hasher_after };

    ghost finish = { spread };

    fn finish(&self) -> u64 {
        let upper = (u128::from(self.word) * u128::from(MULTIPLIER) >> 64) as u64;
        let lower = self.word.wrapping_mul(MULTIPLIER);
        (upper ^ lower >> 32 & 0xFF00_0000) & 0xFFFF_FFFF
    }

    fn write(&mut self, bytes: &[u8]) {
        self.word = self.word.wrapping_mul(MULTIPLIER) ^ first_word(bytes) ^ ninth(bytes) << 28;
    }
}
