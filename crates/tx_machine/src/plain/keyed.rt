// Keyed figures: the code that they begin with, and what follows it.
ghost use Rattle.std.specs.Prelude.{◌≡◌, ◌&&◌, ◌||◌, nat_lt, length};
ghost use Rattle.tx_plan.specs.Codes.{code_of, is_prefix};

use crate::deciding::after;
use std::alloc::Allocator;
use tx_plan::{CodeId, Plan};

/// Whether the text begins the figures and is longer than the best so far.
fn is_longer(text: &[u8], keyed: &[u8], first: bool, width: usize) -> bool
    ensures { result ≡ (is_prefix text.now keyed.now && (first || nat_lt width (length text.now))) }
{
    after(text, keyed).is_some() && (first || width < text.len())
}

/// The longest destination code that begins the figures (ITU-T F.69). It looks at each code;
/// `tx_trie` answers the same by the figures.
pub(crate) fn code_of<A: Allocator>(plan: &Plan<A>, keyed: &[u8]) -> Option<CodeId>
    ensures { result ≡ code_of plan.now keyed.now }
{
    let mut best: Option<CodeId> = None;
    let mut width = 0;
    let mut index = plan.codes();
    while index > 0 {
        index -= 1;
        let code = CodeId::of(index);
        let text = plan.code_figures(code);
        let first = best.is_none();
        if is_longer(text, keyed, first, width) {
            best = Some(code);
            width = text.len();
        }
    }
    best
}
