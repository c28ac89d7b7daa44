//! The destination codes of a plan as a trie: the longest code that begins some figures (ITU-T
//! F.69), and the least pair of codes of which one begins the other.
#![tactic(auto)]

mod codes_writer;
mod trie;

pub use codes_writer::write_codes;
pub use trie::CodeTrie;
