// Plays the cases of files, and compares what each prints with what it has to print.
use crate::cases::{
    Case, Told, cases_of, head_of, next_case, spell, tell, tell_broken, tell_count, tell_differing,
};
use crate::ends::{play_arguments, play_program};
use crate::play::play_texts;
use crate::twins::{Tallies, play_twins, tell_tallies};
use std::{fs, io};

/// How many cases were played, and how many of them differ from what they have to print.
#[derive(Clone, Copy)]
struct Counts {
    cases: u64,
    differ: u64,
}

impl Counts {
    fn none() -> Counts {
        Counts {
            cases: 0,
            differ: 0,
        }
    }

    fn add(&mut self, more: Counts) {
        self.cases = self.cases.saturating_add(more.cases);
        self.differ = self.differ.saturating_add(more.differ);
    }
}

/// What is played, and what came of it.
#[derive(Drop)]
pub(crate) struct Player<'a> {
    rt: &'a HostRuntime,
    counts: Counts,
    tallies: Tallies,
}

impl<'a> Player<'a> {
    pub(crate) fn new(rt: &'a HostRuntime) -> Player<'a> {
        Player {
            rt,
            counts: Counts::none(),
            tallies: Tallies::new(),
        }
    }

    /// A text of a case with its marks spelled.
    fn spelled(&self, text: &[u8]) -> Told {
        let mut spelled = Told::new(self.rt.alloc());
        spell(self.rt.alloc(), text, &mut spelled);
        spelled
    }

    /// Plays a case by its kind.
    fn play_kind(&mut self, head_text: &[u8], texts: &[u8], out: &mut Told) {
        let alloc = self.rt.alloc();
        let head = head_of(head_text);
        match head.word {
            b"program" => play_program(self.rt, head_text, out),
            b"arguments" => play_arguments(alloc, head.first, out),
            b"twins" => play_twins(alloc, head, texts, &mut self.tallies, out),
            _ => play_texts(alloc, head, texts, out),
        }
    }

    /// Plays a case, and writes where it differs.
    fn play(&mut self, case: Case<'_>, counts: &mut Counts, out: &mut Told) {
        let head = self.spelled(case.head);
        let texts = self.spelled(case.texts);
        let wanted = self.spelled(case.prints);
        let mut got = Told::new(self.rt.alloc());
        match texts.whole() {
            Some(texts) => self.play_kind(head.text(), texts, &mut got),
            None => tell_broken(b"no memory", 0, &mut got),
        }
        let differs = got.whole().is_none() || !wanted.is(got.text());
        counts.add(Counts {
            cases: 1,
            differ: u64::from(differs),
        });
        if differs {
            let name = head_of(case.head).name;
            tell_differing(name, wanted.text(), got.text(), out);
        }
    }

    /// Plays the cases of a file, and writes how many there are, and each that differs.
    fn play_cases(&mut self, name: &str, file: &[u8], out: &mut Told) {
        let mut counts = Counts::none();
        let mut rest = cases_of(file);
        for _ in 0..file.len() {
            let Some((case, more)) = next_case(rest) else {
                break;
            };
            self.play(case, &mut counts, out);
            rest = more;
        }
        self.counts.add(counts);
        tell(name.as_bytes(), out);
        tell_count(b": ", counts.differ, b" of ", out);
        tell_count(b"", counts.cases, b" differ\n", out);
    }

    /// Plays the cases of a file, and prints what came of them.
    pub(crate) fn play_file(&mut self, name: &str) -> io::Result<()> {
        let file = fs::read(self.rt, name)?;
        let mut told = Told::new(self.rt.alloc());
        self.play_cases(name, file.as_slice(), &mut told);
        told.let_out(&mut self.rt.stdout())
    }

    /// Prints what the events of all plans came to, if there were any.
    pub(crate) fn end(&self) -> io::Result<()> {
        let mut told = Told::new(self.rt.alloc());
        if self.tallies.whole.events > 0 {
            tell_tallies(&self.tallies, &mut told);
        }
        told.let_out(&mut self.rt.stdout())
    }

    /// Whether there were cases, and none of them differs.
    pub(crate) fn agrees(&self) -> bool {
        self.counts.cases > 0 && self.counts.differ == 0
    }
}
