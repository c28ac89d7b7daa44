// How the codes of a plan are written out.
ghost use Rattle.std.specs.Prelude.{◌≡◌, ◌∷◌, [], codes};
ghost use Rattle.tx_text.specs.Written.{line_written};
ghost use Rattle.tx_text.specs.Puts.{Puts};
ghost use Rattle.tx_text.specs.Wrote.{Wrote};
ghost use Rattle.tx_plan.specs.Plan.{figures_of, exchange_name, home_of};
ghost use Rattle.tx_trie.specs.CodesText.{pair_line, codes_text};

use crate::trie::CodeTrie;
use std::alloc::Allocator;
use tx_plan::{CodeId, Plan};
use tx_text::{Sink, WriteFault, finish, put_bytes, put_parts};

/// Writes a line for each code with its home, in order of declaration, and then the least pair of
/// which one begins the other, or `DISTINCT`. The trie is that of the plan. Where the sink fails, a
/// front of the text was taken.
pub fn write_codes<A: Allocator, W: Sink>(
    plan: &Plan<A>,
    trie: &CodeTrie<A>,
    sink: &mut W,
) -> Result<(), WriteFault>
    requires { trie.now ≡ plan.now.codes }
    ensures { Wrote W.taken W.failed sink.old sink.new (codes_text plan.now) result }
{
    for index in 0..plan.codes() {
        write_code(plan, CodeId::of(index), sink);
    }
    write_pair(trie.ambiguous(), plan, sink);
    finish(sink)
}

/// Writes a code and its home.
fn write_code<A: Allocator, W: Sink>(plan: &Plan<A>, code: CodeId, sink: &mut W)
    ensures { Puts W.taken W.failed sink.old sink.new (line_written (codes "CODE"
        ∷ figures_of plan.now code ∷ exchange_name plan.now (home_of plan.now code) ∷ [])) }
{
    let figures = plan.code_figures(code);
    let home = plan.exchange_name(plan.home(code));
    put_parts(&[b"CODE ", figures, b" ", home, b"\n"], sink);
}

/// Writes the ambiguous pair, or that there is none.
fn write_pair<A: Allocator, W: Sink>(pair: Option<(CodeId, CodeId)>, plan: &Plan<A>, sink: &mut W)
    ensures { Puts W.taken W.failed sink.old sink.new (pair_line plan.now pair) }
{
    let Some((shorter, longer)) = pair else {
        put_bytes(b"DISTINCT\n", sink);
        return;
    };
    let shorter = plan.code_figures(shorter);
    let longer = plan.code_figures(longer);
    put_parts(&[b"AMBIGUOUS ", shorter, b" ", longer, b"\n"], sink);
}
