// The codes of a plan in a trie.
ghost use Rattle.std.specs.Prelude.{◌≡◌, true, IfOk};
ghost use Rattle.tx_plan.specs.Codes.{code_of};
ghost use Rattle.tx_plan.specs.Rules.{is_code};
ghost use Rattle.tx_plan.specs.Ambiguous.{ambiguous_of};
ghost use Rattle.tx_trie.specs.Trie.{plan_of};
ghost use Rattle.tx_trie.specs.inner.Nodes.{node_of, look};

use std::alloc::{Allocator, Global};
use std::marker::Model;
use tx_plan::{CodeId, ExchangeId, NameKey, Plan, three_figures};
use tx_text::{NoMemory, are_figures};

/// The node to which the figures of a code lead from the root.
fn node_of(figures: &[u8]) -> usize
    requires { is_code figures.now ≡ true }
    ensures { result ≡ node_of figures.now }
{
    let mut node = 1;
    for figure in figures {
        node = 10 * node + usize::from(*figure - b'0');
    }
    node
}

/// The code of exactly this text.
fn look(nodes: &[Option<CodeId>], text: &[u8]) -> Option<CodeId>
    ensures { result ≡ look nodes.now text.now }
{
    if !are_figures(text, 2, 3) {
        return None;
    }
    *nodes.get(node_of(text))?
}

/// The destination codes of a plan by their figures: a trie whose nodes are numbers. The root is 1,
/// and the figure x leads from the node n to 10 n + x. So a code of three figures is at one of the
/// nodes from 1000 to 1999, and a tenth of that is the node of its first two.
pub struct CodeTrie<A: Allocator = Global> {
    codes: Vec<(NameKey, ExchangeId), A>,
    /// The code at each node.
    nodes: Vec<Option<CodeId>, A>,
}

impl<A: Allocator> Drop for CodeTrie<A> {
    fn drop(self) {
        let Self { codes, nodes } = self;
        drop(codes);
        drop(nodes);
    }
}

impl<A: Allocator> Model for CodeTrie<A> {
    ghost use Rattle.std.specs.Prelude.{List, map};
    ghost use Rattle.tx_plan.specs.Plan.{Code};
    ghost use Rattle.tx_plan.specs.inner.Tables.{code_of_row};
    ghost use Rattle.tx_trie.specs.inner.Nodes.{IsTrie};

    ghost Value = { List Code };

    ghost view = { λ t. map code_of_row t.codes.items };

    ghost invariant = { λ t. IsTrie (map code_of_row t.codes.items) t.nodes.items };
}

impl<A: Allocator + Copy> CodeTrie<A> {
    /// The trie of a plan's codes. No other call takes memory.
    pub fn build(alloc: A, plan: &Plan<A>) -> Result<Self, NoMemory>
        ensures { IfOk result (λ t. t ≡ plan.now.codes) }
    {
        let mut codes = Vec::new(alloc);
        let mut nodes = vec![in alloc; None; 2000]?;
        for index in 0..plan.codes() {
            let code = CodeId::of(index);
            let figures = plan.code_figures(code);
            codes.push((NameKey::new(figures), plan.home(code)))?;
            nodes[node_of(figures)] = Some(code);
        }
        Ok(CodeTrie { codes, nodes })
    }
}

impl<A: Allocator> CodeTrie<A> {
    /// The longest code that begins the figures (ITU-T F.69), of three figures or of two.
    pub fn read(&self, figures: &[u8]) -> Option<CodeId>
        ensures { result ≡ code_of (plan_of self.now) figures.now }
    {
        let longer = look(&self.nodes, &figures[..usize::min(3, figures.len())]);
        if longer.is_some() {
            return longer;
        }
        look(&self.nodes, &figures[..usize::min(2, figures.len())])
    }

    /// The least pair of a code and a longer code that begins with it: by the shorter code's
    /// figures, and then the longer's.
    pub fn ambiguous(&self) -> Option<(CodeId, CodeId)>
        ensures { result ≡ ambiguous_of self.now }
    {
        for number in 0..1000 {
            let longer = three_figures(number);
            let pair = look(&self.nodes, &longer[..2]).zip(look(&self.nodes, &longer));
            if pair.is_some() {
                return pair;
            }
        }
        None
    }
}
