// The words of a line, and what a word spells.
ghost use Rattle.std.specs.Prelude.{◌≡◌, ◌≢◌, ◌≤◌, ◌∷◌, [], length, MatchOption};
ghost use Rattle.std.specs.List.{list_any, prefix_len};
ghost use Rattle.std.specs.Str.{bytes_eq};
ghost use Rattle.std.specs.Iterator.{YieldsFirstBy, item_count};
ghost use Rattle.tx_text.specs.Words.{words_of, is_blank, none_twice};
ghost use Rattle.tx_text.specs.inner.Words.{is_word_byte};

use std::marker::Model;

pub(crate) fn is_blank(byte: u8) -> bool
    ensures { result ≡ is_blank byte }
{
    byte == b' ' || byte == b'\t'
}

/// The words of a line: what is left to give.
#[derive(Drop)]
pub struct Words<'a> {
    pub(crate) rest: &'a [u8],
}

impl<'a> Model for Words<'a> {
    ghost use Rattle.std.specs.Prelude.{ℕ, List};
    ghost use Rattle.tx_text.specs.Words.{words_of};

    ghost Value = { List (List ℕ) };

    ghost view = { λ w. words_of w.rest.now };
}

impl<'a> Words<'a> {
    /// What is left of the line: these words, and what is around them.
    pub fn rest(&self) -> &'a [u8]
        ensures { words_of result.now ≡ self.now }
    {
        self.rest
    }

    /// The word, where there is one and no more.
    pub fn one(mut self) -> Option<&'a [u8]>
        ensures { MatchOption result (length self.entry ≢ 1) (λ w. self.entry ≡ w.now ∷ []) }
    {
        let word = self.next()?;
        match self.next() {
            None => Some(word),
            Some(_) => None,
        }
    }

    /// The words, where there are two and no more.
    pub fn two(mut self) -> Option<(&'a [u8], &'a [u8])>
        ensures { MatchOption result (length self.entry ≢ 2)
            (λ w. self.entry ≡ w.0.now ∷ w.1.now ∷ []) }
    {
        let first = self.next()?;
        let second = self.next()?;
        match self.next() {
            None => Some((first, second)),
            Some(_) => None,
        }
    }

    /// The words, where there are three and no more.
    pub fn three(mut self) -> Option<(&'a [u8], &'a [u8], &'a [u8])>
        ensures { MatchOption result (length self.entry ≢ 3)
            (λ w. self.entry ≡ w.0.now ∷ w.1.now ∷ w.2.now ∷ []) }
    {
        let first = self.next()?;
        let second = self.next()?;
        let third = self.next()?;
        match self.next() {
            None => Some((first, second, third)),
            Some(_) => None,
        }
    }

    /// The words, where there are five and no more.
    pub fn five(mut self) -> Option<(&'a [u8], &'a [u8], &'a [u8], &'a [u8], &'a [u8])>
        ensures { MatchOption result (length self.entry ≢ 5)
            (λ w. self.entry ≡ w.0.now ∷ w.1.now ∷ w.2.now ∷ w.3.now ∷ w.4.now ∷ []) }
    {
        let first = self.next()?;
        let second = self.next()?;
        let third = self.next()?;
        let fourth = self.next()?;
        let fifth = self.next()?;
        match self.next() {
            None => Some((first, second, third, fourth, fifth)),
            Some(_) => None,
        }
    }

    /// The words that are left, to be given once more.
    pub fn again(&self) -> Words<'a>
        ensures { result ≡ self.now }
    {
        Words { rest: self.rest }
    }

    /// Whether the word is one of these.
    pub fn contains(&self, word: &[u8]) -> bool
        ensures { result ≡ list_any (bytes_eq word.now) self.now }
    {
        self.again().any(|other| word == other)
    }

    /// Whether no word is there twice.
    pub fn none_twice(mut self) -> bool
        ensures { result ≡ none_twice self.entry }
    {
        'words: while let Some(word) = self.next() {
            if self.contains(word) {
                return false;
            }
        }
        true
    }
}

impl<'a> Iterator for Words<'a> {
    type Item = &'a [u8];

    ghost next_gives = { YieldsFirstBy (λ x. x.now) (λ s. s) };

    ghost remaining = { item_count (λ s. s) };

    fn next(&mut self) -> Option<&'a [u8]> {
        let (word, rest) = first_word(self.rest)?;
        self.rest = rest;
        Some(word)
    }
}

/// How many blanks are at the front.
fn count_blanks(text: &[u8]) -> usize
    ensures within { result ≤ length text.now }
    ensures count { result ≡ prefix_len is_blank text.now }
{
    let index = text.iter().position(|byte| !is_blank(*byte));
    index.unwrap_or(text.len())
}

/// How long the word at the front is.
fn word_len(text: &[u8]) -> usize
    ensures within { result ≤ length text.now }
    ensures count { result ≡ prefix_len is_word_byte text.now }
{
    let end = text
        .iter()
        .position(|byte| is_blank(*byte) || *byte == b'#');
    end.unwrap_or(text.len())
}

/// The first word, and what follows it.
fn first_word(text: &[u8]) -> Option<(&[u8], &[u8])>
    ensures { MatchOption result (words_of text.now ≡ [])
        (λ x. words_of text.now ≡ x.0.now ∷ words_of x.1.now) }
{
    let (_, from) = text.split_at(count_blanks(text));
    let (word, rest) = from.split_at(word_len(from));
    if word.is_empty() {
        None
    } else {
        Some((word, rest))
    }
}
