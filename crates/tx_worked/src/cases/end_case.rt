// The cases of the program at its ends. Their heads are `NAME program SETTINGS : WORDS`. The
// settings:
//
// - `input FILE`: standard input has the bytes of that file, else those of the file `empty`.
// - `piece N`: a read gives at most N bytes.
// - `fails NAME N`: read number N of that file fails, or flush number N where it is written.
//   Standard input is `in`.
// - `interrupts NAME N`: call number N of that file is interrupted: a read, or a write or flush. It
//   goes on where it is called again.
// - `room NAME N`: that file takes N bytes and then fails. Standard output and standard error are
//   `out` and `errors`.
// - `unfinished FILE`: that file, which is made, cannot be given its name.
// - `terminal`: standard input is a terminal.
// - `shows FILE`: what that file holds in the end is printed.
// - `each-request`: each request of the command for memory is refused in turn.
// - `words`: nothing is run: what the words ask for is printed.
use std::alloc::Global;

/// A case: how the ends behave, and the words of the program.
#[derive(Drop)]
pub struct EndCase<'a> {
    /// The file that stands for standard input.
    pub input: &'a str,
    /// How many bytes a read gives at most.
    pub piece: usize,
    /// The file of which a read fails, or a flush where it is written, and which of them.
    pub fails: Option<(&'a str, u64)>,
    /// The file of which a call is interrupted, and which of its calls: reads, or writes and
    /// flushes.
    pub interrupts: Option<(&'a str, u64)>,
    /// The file that fails when it has taken so many bytes.
    pub room: Option<(&'a str, u64)>,
    /// The file that cannot be given its name.
    pub unfinished: Option<&'a str>,
    /// Whether standard input is a terminal.
    pub is_terminal: bool,
    /// The file to be shown in the end.
    pub shows: Option<&'a str>,
    pub what: What,
    /// Whether a setting is none, a number is missing, or memory ran out for a word.
    pub is_bad: bool,
    pub words: Vec<&'a str>,
}

/// What is done with the words.
#[derive(Clone, Copy)]
pub enum What {
    Run,
    /// Run with each request for memory refused in turn.
    RunWithout,
    /// Only read.
    Read,
}

impl<'a> EndCase<'a> {
    /// A case with no settings and no words.
    fn new(alloc: Global) -> EndCase<'a> {
        EndCase {
            input: "empty",
            piece: 4096,
            fails: None,
            interrupts: None,
            room: None,
            unfinished: None,
            is_terminal: false,
            shows: None,
            what: What::Run,
            is_bad: false,
            words: Vec::new(alloc),
        }
    }

    /// The case of a head.
    pub fn read(alloc: Global, head: &'a str) -> EndCase<'a> {
        let (settings, words) = head.split_once(':').unwrap_or((head, ""));
        let mut case = EndCase::new(alloc);
        case.set_all(settings);
        for word in words.split_whitespace() {
            if case.words.push(word).is_err() {
                case.is_bad = true;
            }
        }
        case
    }

    /// Takes the settings, which stand after the name and the kind of the case.
    fn set_all(&mut self, settings: &'a str) {
        let mut rest = settings.split_whitespace();
        let _name = rest.next();
        let _kind = rest.next();
        while let Some(setting) = rest.next() {
            match setting {
                "input" => self.input = rest.next().unwrap_or(""),
                "piece" => self.piece = self.number(rest.next()).max(1) as usize,
                "fails" => self.fails = Some(self.call_of(rest.next(), rest.next())),
                "interrupts" => self.interrupts = Some(self.call_of(rest.next(), rest.next())),
                "room" => self.room = Some(self.call_of(rest.next(), rest.next())),
                "unfinished" => self.unfinished = rest.next(),
                "terminal" => self.is_terminal = true,
                "shows" => self.shows = rest.next(),
                "each-request" => self.what = What::RunWithout,
                "words" => self.what = What::Read,
                _ => self.is_bad = true,
            }
        }
    }

    /// The number that a word spells. Where it spells none, the case is bad.
    fn number(&mut self, word: Option<&str>) -> u32 {
        if let Ok(number) = word.unwrap_or("").parse::<u32>() {
            return number;
        }
        self.is_bad = true;
        0
    }

    /// The name of a file, and the number after it.
    fn call_of(&mut self, name: Option<&'a str>, number: Option<&str>) -> (&'a str, u64) {
        (name.unwrap_or(""), u64::from(self.number(number)))
    }

    /// Which read or flush of a file fails, or 0.
    pub fn failing_call(&self, name: &str) -> u64 {
        number_at(self.fails, name).unwrap_or(0)
    }

    /// Which call of a file is interrupted, or 0.
    pub fn interrupted_call(&self, name: &str) -> u64 {
        number_at(self.interrupts, name).unwrap_or(0)
    }

    /// How many bytes a file takes.
    pub fn room(&self, name: &str) -> usize {
        number_at(self.room, name).unwrap_or(u64::MAX) as usize
    }
}

/// The number that is set for a file, if one is.
fn number_at(set: Option<(&str, u64)>, name: &str) -> Option<u64> {
    match set {
        Some((file, number)) if file == name => Some(number),
        _ => None,
    }
}
