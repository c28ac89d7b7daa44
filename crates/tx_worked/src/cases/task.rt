// The command that a case plays, and its texts.

use crate::cases::case::two_texts;
use std::alloc::{AllocError, Global};
use tx_commands::{Command, WordsFault, read_command};

/// When pages are made: 2026-12-01, at midnight.
pub const MOMENT: u64 = 1_796_083_200;

/// The words of a command after the kind of its case and, where it matters, the word after the
/// kind. `@1`, `@2` and `@3` stand for the words after the kind: where there is no such word, what
/// has it is left out. All that a command can print and make is asked for.
static COMMANDS: [&str; 38] = [
    "pipe:",
    "run: run plan script",
    "checked: run plan script --cert=cert --limit=@1 --spare=@2",
    "checked-telling: run plan script --strict --echo --summary --cert=cert --limit=@1 --spare=@2",
    "telling summary: run plan script --strict --summary",
    "telling both: run plan script --strict --echo --summary",
    "telling: run plan script --strict --echo",
    "check: check plan cert --limit=@1 --spare=@2",
    "lint risks: lint @2 --risks=risks",
    "lint: lint @1",
    "codes: codes plan",
    "audit: audit plan --limit=@1 --spare=@2 --cert=cert --counter=script",
    "audit-down: audit plan --limit=@1 --spare=@2 --down=@3",
    "change: change old new --limit=@1 --spare=@2 --cert=cert --mixture=plan --counter=script",
    "order: order old new --limit=@1 --spare=@2",
    "order-down: order old new --limit=@1 --spare=@2 --down=@3",
    "onward: order old new --limit=1 --spare=0 --stage=@1 --done=done --down=@2",
    "return: order old new --limit=1 --spare=0 --stage=@1 --done=done --back",
    "stage: order old new --limit=@1 --spare=@2 --stage=@3 --plan=plan --cert=cert",
    "mend: mend old --limit=@1 --spare=@2 --plan=plan --cert=cert",
    "mend-down: mend old --limit=@1 --spare=@2 --down=@3",
    "survive alone: survive plan --down=@2",
    "survive named: survive plan --risks=risks --risks-only",
    "survive from: survive new --from=old",
    "survive named-from: survive new --from=old --risks=risks --risks-only",
    "survive risks-from: survive new --from=old --risks=risks",
    "survive: survive plan --risks=risks",
    "page: page @1 --limit=@2 --spare=@3 --all-codes",
    "page-risks: page @1 --limit=@2 --spare=@3 --risks=risks --all-codes",
    "page-change: page @1 --limit=@2 --spare=@3 --risks=risks --from=old",
    "page-crews: page @1 --limit=@2 --spare=@3 --risks=risks --from=old --by-exchange",
    "page-code: page @1 --limit=@2 --spare=1 --code=@3",
    "grade: grade plan",
    "trace changes: trace plan --from=old",
    "trace-from: trace plan @1 @2 --from=old",
    "trace through: trace plan --through=@2 --down=@3",
    "trace: trace plan @1 @2 --down=@3",
    "fill: fill plan @1 @2 --down=@3",
];

/// The words of the command of a kind, if it is that of a command.
fn words_of(kind: &[u8], first: &[u8]) -> Option<&'static str> {
    for row in &COMMANDS {
        let (head, words) = row.split_once(':').unwrap_or((*row, ""));
        let (name, second) = head.split_once(' ').unwrap_or((head, ""));
        if kind == name.as_bytes() && (second.is_empty() || first == second.as_bytes()) {
            return Some(words);
        }
    }
    None
}

/// Whether a kind is that of a command.
pub fn is_command(kind: &[u8]) -> bool {
    words_of(kind, b"").is_some()
}

/// A word of a command, with what stands after the kind in its place.
fn placed(alloc: Global, word: &str, after: [&[u8]; 3]) -> Result<Option<String>, AllocError> {
    let Some((front, index)) = word.split_once('@') else {
        return Ok(Some(String::from_str(alloc, word)?));
    };
    let given = match index {
        "1" => after[0],
        "2" => after[1],
        _ => after[2],
    };
    match str::from_utf8(given) {
        Ok("") | Err(_) => Ok(None),
        Ok(given) => Ok(Some(format!(in alloc; "{front}{given}")?)),
    }
}

/// The command of a kind and the words after it.
pub fn command_of(alloc: Global, kind: &[u8], after: [&[u8]; 3]) -> Result<Command, WordsFault> {
    let mut all = Vec::new(alloc);
    for word in words_of(kind, after[0])
        .unwrap_or("no-command")
        .split_whitespace()
    {
        if let Some(word) = placed(alloc, word, after)? {
            all.push(word)?;
        }
    }
    let mut words = Vec::new(alloc);
    for word in &all {
        words.push(word.as_str())?;
    }
    let mut command = read_command(alloc, words.as_slice())?;
    if let Command::Page(request) = &mut command {
        request.moment = Some(MOMENT);
    }
    Ok(command)
}

/// A command and its texts, in the order in which they are read.
#[derive(Clone, Copy)]
pub struct Task<'a> {
    /// The kind of its case.
    pub kind: &'a [u8],
    pub command: &'a Command,
    pub first: &'a [u8],
    pub second: &'a [u8],
    pub third: &'a [u8],
}

impl<'a> Task<'a> {
    /// A command over its first text and the others, which are in one.
    pub fn new(kind: &'a [u8], command: &'a Command, first: &'a [u8], rest: &'a [u8]) -> Task<'a> {
        let reads = command.files().reads;
        let last = reads[2];
        let (second, third) = if last.is_some() {
            two_texts(rest)
        } else {
            (rest, b"".as_slice())
        };
        Task {
            kind,
            command,
            first,
            second,
            third,
        }
    }

    /// How many sources it has: one for each file that the command reads.
    pub fn sources(&self) -> usize {
        let reads = self.command.files().reads;
        reads.iter().filter(|file| file.is_some()).count()
    }

    /// Its last text.
    pub fn last(&self) -> &'a [u8] {
        match self.sources() {
            0 | 1 => self.first,
            2 => self.second,
            _ => self.third,
        }
    }

    /// The task with another last text.
    pub fn with_last(self, text: &'a [u8]) -> Task<'a> {
        let mut task = self;
        match self.sources() {
            0 | 1 => task.first = text,
            2 => task.second = text,
            _ => task.third = text,
        }
        task
    }
}
