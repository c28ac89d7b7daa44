// A line of a plan as a value, between its words and what it declares.
ghost use Rattle.std.specs.Prelude.{◌≡◌, ◌∷◌, ℕ, codes};
ghost use Rattle.tx_plantext.specs.PlanText.{direction_of};
ghost use Rattle.tx_plantext.specs.inner.LineWords.{IsRead};

use tx_plan::Direction;
use tx_text::Words;

/// A line of a plan, with its words as the builder takes them.
#[derive(Drop)]
pub enum PlanLine<'t> {
    Exchange {
        name: &'t [u8],
    },
    Code {
        code: &'t [u8],
        home: &'t [u8],
    },
    Lines {
        code: &'t [u8],
        low: &'t [u8],
        high: &'t [u8],
    },
    Group {
        name: &'t [u8],
        a: &'t [u8],
        b: &'t [u8],
        direction: Direction,
        count: &'t [u8],
    },
    Route {
        exchange: &'t [u8],
        code: &'t [u8],
        groups: Words<'t>,
    },
    Bar {
        exchange: &'t [u8],
        code: &'t [u8],
    },
}

/// Why some words are no line of a plan.
#[derive(Clone, Copy)]
pub enum LineFault<'t> {
    /// No line begins with the word, or it is where a group has its direction, and is none. There
    /// is a word unless there are none at all.
    UnknownWord(Option<&'t [u8]>),
    /// There are too few words, or too many.
    WrongCount,
}

impl<'t> PlanLine<'t> {
    /// The line that has these words, under a header of this version.
    #[tactic(auto, using(crate::proofs::Counts::exchange_count, crate::proofs::Counts::code_count, crate::proofs::Counts::lines_count, crate::proofs::Counts::bar_count), unfolding(crate::specs::PlanText::declare))]
    pub fn read(version: u8, words: Words<'t>) -> Result<PlanLine<'t>, LineFault<'t>>
        ensures { IsRead version words.entry result }
    {
        let mut rest = words;
        let Some(first) = rest.next() else {
            return Err(LineFault::UnknownWord(None));
        };
        if first == b"EXCHANGE".as_slice() {
            let name = rest.one().ok_or(LineFault::WrongCount)?;
            Ok(PlanLine::Exchange { name })
        } else if first == b"CODE".as_slice() {
            let (code, home) = rest.two().ok_or(LineFault::WrongCount)?;
            Ok(PlanLine::Code { code, home })
        } else if first == b"LINES".as_slice() {
            let (code, low, high) = rest.three().ok_or(LineFault::WrongCount)?;
            Ok(PlanLine::Lines { code, low, high })
        } else if first == b"GROUP".as_slice() {
            group_line(rest)
        } else if first == b"ROUTE".as_slice() {
            route_line(rest)
        } else if version == 2 && first == b"BAR".as_slice() {
            let (exchange, code) = rest.two().ok_or(LineFault::WrongCount)?;
            Ok(PlanLine::Bar { exchange, code })
        } else if first == b"END".as_slice() {
            Err(LineFault::WrongCount)
        } else {
            Err(LineFault::UnknownWord(Some(first)))
        }
    }
}

/// GROUP name a b direction count.
#[tactic(auto, using(crate::proofs::Counts::group_count), unfolding(crate::specs::PlanText::declare))]
fn group_line<'t>(words: Words<'t>) -> Result<PlanLine<'t>, LineFault<'t>>
    ensures { (v : ℕ) → IsRead v (codes "GROUP" ∷ words.entry) result }
{
    let (name, a, b, word, count) = words.five().ok_or(LineFault::WrongCount)?;
    let direction = direction_of(word).ok_or(LineFault::UnknownWord(Some(word)))?;
    Ok(PlanLine::Group {
        name,
        a,
        b,
        direction,
        count,
    })
}

/// ROUTE exchange code group ..
#[tactic(auto, unfolding(crate::specs::PlanText::declare))]
fn route_line<'t>(words: Words<'t>) -> Result<PlanLine<'t>, LineFault<'t>>
    ensures { (v : ℕ) → IsRead v (codes "ROUTE" ∷ words.entry) result }
{
    let mut groups = words;
    let exchange = groups.next().ok_or(LineFault::WrongCount)?;
    let code = groups.next().ok_or(LineFault::WrongCount)?;
    Ok(PlanLine::Route {
        exchange,
        code,
        groups,
    })
}

fn direction_of(word: &[u8]) -> Option<Direction>
    ensures { result ≡ direction_of word.now }
{
    if word == b"ONEWAY".as_slice() {
        Some(Direction::OneWay)
    } else if word == b"BOTHWAY".as_slice() {
        Some(Direction::BothWay)
    } else {
        None
    }
}
