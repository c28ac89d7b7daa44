// What the head of a case says.
use crate::cases::case::{named, next_word};
use tx_text::{number, words};

/// What is done with a job.
#[derive(Clone, Copy)]
pub enum Mode {
    Plain,
    /// Once, as it stands: nothing else is tried.
    Once,
    EachEnd,
    Prefixes,
}

static MODES: [(&str, Mode); 3] = [
    ("once", Mode::Once),
    ("each-end", Mode::EachEnd),
    ("prefixes", Mode::Prefixes),
];

/// What the head of a case says.
#[derive(Clone, Copy)]
pub struct Head<'a> {
    pub name: &'a [u8],
    pub mode: Mode,
    /// The word of the kind.
    pub word: &'a [u8],
    pub first: &'a [u8],
    pub second: &'a [u8],
    pub third: &'a [u8],
}

pub fn head_of(head: &[u8]) -> Head<'_> {
    let mut rest = words(head);
    let name = next_word(&mut rest);
    let word = next_word(&mut rest);
    let mode = named(&MODES, word).unwrap_or(Mode::Plain);
    let word = match mode {
        Mode::Plain => word,
        Mode::Once | Mode::EachEnd | Mode::Prefixes => next_word(&mut rest),
    };
    Head {
        name,
        mode,
        word,
        first: next_word(&mut rest),
        second: next_word(&mut rest),
        third: next_word(&mut rest),
    }
}

impl<'a> Head<'a> {
    /// The first two numbers of a case, each 0 where its word says none.
    pub fn numbers(&self) -> (u32, u32) {
        let first = number(self.first, u32::MAX).unwrap_or(0);
        (first, number(self.second, u32::MAX).unwrap_or(0))
    }

    /// The limit and the spare number of a case.
    pub fn limit_and_spare(&self) -> (u8, u8) {
        let limit = number(self.first, 62).unwrap_or(0).min(62) as u8;
        let spare = number(self.second, 15).unwrap_or(0).min(15) as u8;
        (limit, spare)
    }
}
