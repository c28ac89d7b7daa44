// Names of a plan, and what they name.
ghost use Rattle.std.specs.Prelude.{◌≡◌, ◌≤◌, length};
ghost use Rattle.tx_text.specs.inner.Padded.{padded_to};
ghost use Rattle.tx_plan.specs.Plan.{exchange_named, code_named, group_named, exchange_name, figures_of, group_name};

use crate::ids::{CodeId, ExchangeId, GroupId};
use crate::plan::Plan;
use std::alloc::Allocator;
use std::hash::{Hash, Hasher};
use std::marker::Model;
use tx_text::InlineBytes;

/// A text of at most 8 bytes: a name, or the figures of a code.
#[derive(Clone, Copy, PartialEq, Eq)]
pub struct NameKey {
    text: InlineBytes<8>,
}

impl Model for NameKey {
    ghost use Rattle.std.specs.Prelude.{ℕ, List};

    ghost Value = { List ℕ };

    ghost view = { λ k. k.text };

    ghost inverse = { λ t. record { text = t } };
}

impl Hash for NameKey {
    ghost use Rattle.std.specs.Prelude.{[], ◌∷◌};
    ghost use Rattle.std.proofs.Common.{ap};
    ghost use Rattle.std.specs.Cmp.Lexicographic.{bytes_decides};

    ghost hash_input = { λ n. padded_to 8 n ∷ [] };

    ghost respects_eq = { λ x y h. ap (λ n. padded_to 8 n ∷ []) ((bytes_decides x y).0 h) };

    fn hash<H: Hasher>(&self, state: &mut H) {
        state.write(self.text.padded());
    }
}

impl NameKey {
    /// The text, which has room.
    pub fn new(text: &[u8]) -> NameKey
        requires { length text.now ≤ 8 }
        ensures { result ≡ text.now }
    {
        NameKey {
            text: InlineBytes::new(text),
        }
    }

    /// The text.
    pub fn bytes(&self) -> &[u8]
        ensures value { result.now ≡ self.now }
        ensures width { length result.now ≤ 8 }
    {
        self.text.bytes()
    }
}

/// Names, and what they name.
impl<A: Allocator> Plan<A> {
    /// The exchange of a name, if one is declared.
    pub fn exchange_named(&self, name: &[u8]) -> Option<ExchangeId>
        ensures { result ≡ exchange_named self.now name.now }
    {
        let exchanges = &self.exchanges;
        if name.len() > 8 {
            return None;
        }
        let index = exchanges.get_index_of(&NameKey::new(name))?;
        Some(ExchangeId::of(index))
    }

    /// The code of these figures, if it is declared.
    pub fn code_named(&self, figures: &[u8]) -> Option<CodeId>
        ensures { result ≡ code_named self.now figures.now }
    {
        let codes = &self.codes;
        if figures.len() > 3 {
            return None;
        }
        let index = codes.get_index_of(&NameKey::new(figures))?;
        Some(CodeId::of(index))
    }

    /// The group of a name, if one is declared.
    pub fn group_named(&self, name: &[u8]) -> Option<GroupId>
        ensures { result ≡ group_named self.now name.now }
    {
        let groups = &self.groups;
        if name.len() > 8 {
            return None;
        }
        let index = groups.get_index_of(&NameKey::new(name))?;
        Some(GroupId::of(index))
    }

    /// The name of an exchange; no bytes for a foreign one.
    pub fn exchange_name(&self, exchange: ExchangeId) -> &[u8]
        ensures value { result.now ≡ exchange_name self.now exchange }
        ensures width { length result.now ≤ 8 }
    {
        match self.exchanges.get_index(exchange.index()) {
            Some(name) => name.bytes(),
            None => &[],
        }
    }

    /// The figures of a code; none for a foreign one.
    pub fn code_figures(&self, code: CodeId) -> &[u8]
        ensures value { result.now ≡ figures_of self.now code }
        ensures width { length result.now ≤ 8 }
    {
        match self.codes.get_index(code.index()) {
            Some((figures, _)) => figures.bytes(),
            None => &[],
        }
    }

    /// The name of a group; no bytes for a foreign one.
    pub fn group_name(&self, group: GroupId) -> &[u8]
        ensures value { result.now ≡ group_name self.now group }
        ensures width { length result.now ≤ 8 }
    {
        match self.groups.get_index(group.index()) {
            Some((name, _)) => name.bytes(),
            None => &[],
        }
    }
}
