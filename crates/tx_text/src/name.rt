// Names of exchanges and groups.
ghost use Rattle.std.specs.Prelude.{◌≡◌, ◌≤◌, ◌||◌, true, length};
ghost use Rattle.std.specs.List.{list_all};
ghost use Rattle.tx_text.specs.Words.{is_name, is_letter, is_figure};
ghost use Rattle.tx_text.specs.inner.Words.{name_of};

use crate::figures::{InlineBytes, is_figure};
use std::marker::Model;

/// The name of an exchange or a group: 1 to 8 of `A` to `Z` and `0` to `9`, a letter first.
#[derive(Clone, Copy, PartialEq, Eq)]
pub struct Name {
    text: InlineBytes<8>,
}

impl Model for Name {
    ghost use Rattle.std.specs.Prelude.{ℕ, List, ◌≤◌, length};

    ghost Value = { List ℕ };

    ghost view = { λ n. n.text };

    ghost use Rattle.std.specs.Prelude.{◌≡◌, true};
    ghost use Rattle.tx_text.specs.Words.{is_name};

    ghost invariant = { λ n. is_name n.text ≡ true };

    ghost inverse = { λ d. record { text = d } };
}

impl Name {
    /// The name, where the text is one.
    pub fn read(text: &[u8]) -> Option<Name>
        ensures { result ≡ name_of text.now }
    {
        if is_name(text) {
            let text = InlineBytes::new(text);
            Some(Name { text })
        } else {
            None
        }
    }

    /// The signs of the name.
    pub fn bytes(&self) -> &[u8]
        ensures { result.now ≡ self.now }
    {
        self.text.bytes()
    }
}

fn is_letter(byte: u8) -> bool
    ensures { result ≡ is_letter byte }
{
    b'A' <= byte && byte <= b'Z'
}

/// Whether the text is a name.
pub fn is_name(text: &[u8]) -> bool
    ensures gives { result ≡ is_name text.now }
    ensures short { result ≡ true → length text.now ≤ 8 }
{
    match text {
        [] => false,
        [first, rest @ ..] => { is_letter(*first) && are_signs(rest) && rest.len() <= 7 }
    }
}

fn are_signs(text: &[u8]) -> bool
    ensures { result ≡ list_all (λ x. is_letter x || is_figure x) text.now }
{
    text.iter().all(|byte| is_letter(*byte) || is_figure(*byte))
}
