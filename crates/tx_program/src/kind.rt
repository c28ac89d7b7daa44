// The kinds of texts, and how a file shows which it holds.
use crate::folder::Folder;
use std::io::Read;
use tx_text::{FromRead, Source};

/// A kind of text that the program reads or writes.
#[derive(Clone, Copy, PartialEq, Eq)]
pub(crate) enum TextKind {
    Plan,
    Cert,
    Script,
    Risks,
    Done,
    Page,
}

/// The kinds of the files that a command makes, in the order in which it makes them.
pub(crate) const MADE: [TextKind; 4] = [
    TextKind::Plan,
    TextKind::Cert,
    TextKind::Script,
    TextKind::Page,
];

/// The kinds that a header shows.
const KINDS: [TextKind; 5] = [
    TextKind::Plan,
    TextKind::Cert,
    TextKind::Script,
    TextKind::Risks,
    TextKind::Done,
];

impl TextKind {
    /// The word that begins its header. A page has none.
    fn key(self) -> &'static [u8] {
        match self {
            TextKind::Plan => tx_plantext::KEY,
            TextKind::Cert => b"CERT",
            TextKind::Script => b"SCRIPT",
            TextKind::Risks => b"RISKS",
            TextKind::Done => b"DONE",
            TextKind::Page => b"",
        }
    }

    /// What it is called.
    pub(crate) fn name(self) -> &'static str {
        match self {
            TextKind::Plan => "plan",
            TextKind::Cert => "certificate",
            TextKind::Script => "script",
            TextKind::Risks => "text of risks",
            TextKind::Done => "text of what is done",
            TextKind::Page => "page",
        }
    }
}

/// The first word of a file, so far as it was read.
#[derive(Clone, Copy)]
struct FirstWord {
    /// Its letters as capitals: one more than the longest header has.
    letters: [u8; 7],
    len: usize,
    in_comment: bool,
}

impl FirstWord {
    /// That of a file, or of what can be read of it.
    fn of<R: Read + Drop>(file: R) -> FirstWord {
        let mut word = FirstWord {
            letters: [0; 7],
            len: 0,
            in_comment: false,
        };
        let mut source = FromRead::new(file);
        let mut piece = [0u8; 4096];
        for _ in 0..u64::MAX {
            match source.read(&mut piece) {
                Ok(n) if n > 0 => {
                    if word.take(&piece[..n]) {
                        return word;
                    }
                }
                _ => return word,
            }
        }
        word
    }

    /// Takes the next bytes. Returns whether the word is over.
    fn take(&mut self, bytes: &[u8]) -> bool {
        for i in 0..bytes.len() {
            if self.take_byte(bytes[i]) {
                return true;
            }
        }
        false
    }

    /// The same of one byte. Those of a byte order mark before the word are passed over.
    fn take_byte(&mut self, byte: u8) -> bool {
        if self.in_comment {
            self.in_comment = byte != b'\n';
            return false;
        }
        match byte {
            b' ' | b'\t' | b'\r' | b'\n' => self.len > 0,
            0xef | 0xbb | 0xbf if self.len == 0 => false,
            b'#' => {
                self.in_comment = true;
                self.len > 0
            }
            _ => self.add(byte.to_ascii_uppercase()),
        }
    }

    /// Adds a letter. Returns whether there are more of them than any header has.
    fn add(&mut self, letter: u8) -> bool {
        match self.letters.get_mut(self.len) {
            Some(place) => {
                *place = letter;
                self.len += 1;
                false
            }
            None => true,
        }
    }

    /// Whether it is this word.
    fn is(&self, key: &[u8]) -> bool {
        self.len == key.len() && self.letters.starts_with(key)
    }
}

/// The kind of text that a file holds, if it begins as one, in capitals or small letters. Where it
/// cannot be read, it does not.
pub(crate) fn kind_of<F: Folder>(folder: &F, name: &str) -> Option<TextKind> {
    let Ok(file) = folder.open(name) else {
        return None;
    };
    let word = FirstWord::of(file);
    for kind in KINDS {
        if word.is(kind.key()) {
            return Some(kind);
        }
    }
    None
}
