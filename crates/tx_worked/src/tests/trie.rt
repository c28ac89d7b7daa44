// Codes that are read of figures.
use crate::cases::{Told, tell, tell_parts, without_lf};
use std::alloc::Global;
use tx_plan::Plan;
use tx_trie::CodeTrie;

/// Tells the least pair of codes of which one begins the other, and the code that is read of each
/// line.
pub(crate) fn tell_trie(plan: &Plan, trie: &CodeTrie, lines: &[u8], out: &mut Told) {
    match trie.ambiguous() {
        Some((shorter, longer)) => {
            let (shorter, longer) = (plan.code_figures(shorter), plan.code_figures(longer));
            tell_parts(&[shorter, b" begins ", longer, b"\n"], out);
        }
        None => tell(b"distinct\n", out),
    }
    for line in lines.split_inclusive(|byte| *byte == b'\n') {
        let line = without_lf(line);
        let read = match trie.read(line) {
            Some(code) => plan.code_figures(code),
            None => b"none",
        };
        tell_parts(&[line, b": ", read, b"\n"], out);
    }
}
