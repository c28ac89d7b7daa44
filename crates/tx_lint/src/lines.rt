// The lines of a plan's text, all of them.
ghost use Rattle.std.specs.Prelude.{◌≡◌, ◌∷◌, ◌++◌, [], true, None, IfOk, IfErr, OnOk};
ghost use Rattle.std.specs.Option.{option_to_list};
ghost use Rattle.tx_text.specs.inner.TextLine.{line_of};
ghost use Rattle.tx_text.specs.Text.{bytes_fault};
ghost use Rattle.tx_text.specs.Words.{words_of};
ghost use Rattle.tx_plantext.specs.inner.LineWords.{line_words};
ghost use Rattle.tx_lint.specs.AllFaults.{no_progress, form_of, fault_of_end};
ghost use Rattle.tx_lint.specs.Lints.{fault_held};
ghost use Rattle.tx_lint.specs.inner.Readings.{progress_held, faults_held, TookIn, Declared, HasRead, Noted};

use crate::at_fault::{meant_by, meant_name, word_at_fault};
use crate::entry::Entry;
use crate::fault::Fault;
use std::alloc::Allocator;
use tx_plan::{PlanBuilder, PlanRefusal};
use tx_plantext::{KEY, LineFault, PlanLine, PlanWord, VERSIONS};
use tx_text::{
    FaultKind, FrameFault, FramePart, LineForm, NoMemory, TextLine, WholeTextFault, bytes_fault,
    closing, first_line, last_fault, look, words,
};

/// What was read of a text: what its lines declare, and what is wrong with them.
#[derive(Drop)]
pub(crate) struct Reading<'t, A: Allocator> {
    pub part: FramePart,
    pub version: u8,
    pub plan: PlanBuilder<A>,
    pub entries: Vec<(u64, Entry), A>,
    pub faults: Vec<Fault<'t>, A>,
}

impl<'t, A: Allocator + Copy> Reading<'t, A> {
    /// Nothing was read yet.
    fn new(alloc: A) -> Reading<'t, A>
        ensures progress { progress_held result ≡ no_progress }
        ensures faults { faults_held result ≡ [] }
    {
        Reading {
            part: FramePart::Start,
            version: 1,
            plan: PlanBuilder::new(alloc),
            entries: Vec::new(alloc),
            faults: Vec::new(alloc),
        }
    }
}

impl<'t, A: Allocator> Reading<'t, A> {
    /// Notes a fault of a line.
    fn tell(&mut self, fault: Fault<'t>) -> Result<(), NoMemory>
        ensures told { OnOk result (faults_held self.new
            ≡ faults_held self.old ++ fault_held fault.entry ∷ []) }
        ensures same { progress_held self.new ≡ progress_held self.old }
    {
        self.faults.push(fault)?;
        Ok(())
    }

    /// Notes the line of an entry.
    fn note(&mut self, line: u64, entry: Entry) -> Result<(), NoMemory>
        ensures { OnOk result (Noted self.old self.new line entry) }
    {
        self.entries.push((line, entry))?;
        Ok(())
    }

    /// Takes in the next line.
    fn take_in(&mut self, line: TextLine<'t>) -> Result<(), WholeTextFault>
        ensures took { OnOk result (TookIn self.old self.new (line_of line.entry)) }
        ensures memory { IfErr result (λ fault. fault ≡ WholeTextFault.NoMemory) }
    {
        if let Some(fault) = bytes_fault(line.text) {
            self.tell(Fault::of_line(line, FrameFault::from(fault)))?;
            return Ok(());
        }
        if line.finished {
            let form = look(KEY, VERSIONS, self.part, line.text);
            return self.take_form(line, form);
        }
        if let Some(fault) = last_fault(self.part, line.text) {
            self.tell(Fault::of_line(line, fault))?;
        }
        Ok(())
    }

    /// The same of a finished line of right bytes, by what it is in the frame.
    fn take_form(&mut self, line: TextLine<'t>, form: LineForm) -> Result<(), WholeTextFault>
        requires finished { line.finished ≡ true }
        requires right { bytes_fault line.text.now ≡ None }
        requires form { form ≡ form_of self.old.part (words_of line.text.now) }
        ensures took { OnOk result (TookIn self.old self.new (line_of line.entry)) }
        ensures memory { IfErr result (λ fault. fault ≡ WholeTextFault.NoMemory) }
    {
        match form {
            LineForm::Blank => {}
            LineForm::Header(version) => {
                self.part = FramePart::Body;
                self.version = version;
                self.note(line.number, Entry::Header)?;
            }
            LineForm::Plain => self.declare(line)?,
            LineForm::End => self.part = FramePart::Ended,
            LineForm::Bad(fault) => {
                self.tell(Fault::of_line(line, fault))?;
                if matches!(fault, FrameFault::NoHeader) {
                    self.part = FramePart::Body;
                    self.version = VERSIONS;
                }
            }
        }
        Ok(())
    }

    /// The same of a line with words between the header and END.
    fn declare(&mut self, line: TextLine<'t>) -> Result<(), WholeTextFault>
        requires finished { line.finished ≡ true }
        requires right { bytes_fault line.text.now ≡ None }
        requires plain { form_of self.old.part (words_of line.text.now) ≡ LineForm.Plain }
        ensures took { OnOk result (TookIn self.old self.new (line_of line.entry)) }
        ensures memory { IfErr result (λ fault. fault ≡ WholeTextFault.NoMemory) }
    {
        let (fault, word) = match PlanLine::read(self.version, words(line.text)) {
            Ok(read) => return self.declare_line(line.number, &read),
            Err(LineFault::UnknownWord(word)) => (PlanWord::UnknownWord, word),
            Err(LineFault::WrongCount) => (PlanWord::from(PlanRefusal::WrongCount), None),
        };
        self.tell(Fault {
            line: line.number,
            kind: FaultKind::Word(fault),
            word,
            meant: meant_name(words(line.text)),
        })?;
        Ok(())
    }

    /// Declares what a line does, or notes why it is refused.
    fn declare_line(&mut self, number: u64, line: &PlanLine<'t>) -> Result<(), WholeTextFault>
        ensures declared { OnOk result (Declared self.old self.new number (line_words line.now)) }
        ensures memory { IfErr result (λ fault. fault ≡ WholeTextFault.NoMemory) }
    {
        let entry = Entry::next(self.plan.plan(), line);
        match line.declare(&mut self.plan) {
            Ok(()) => self.note(number, entry)?,
            Err(PlanRefusal::NoMemory) => return Err(WholeTextFault::NoMemory),
            Err(refusal) => {
                let kind = FaultKind::Word(PlanWord::from(refusal));
                let word = word_at_fault(self.plan.plan(), line, refusal);
                let meant = meant_by(line);
                self.tell(Fault {
                    line: number,
                    kind,
                    word,
                    meant,
                })?;
            }
        }
        Ok(())
    }

    /// Takes in the end of a text, after the line before this number.
    fn end(&mut self, number: u64) -> Result<(), NoMemory>
        ensures faults { OnOk result (faults_held self.new
            ≡ faults_held self.old ++ option_to_list (fault_of_end number self.old.part)) }
        ensures same { progress_held self.new ≡ progress_held self.old }
    {
        if let Some(fault) = closing(self.part) {
            self.tell(Fault::at_end(number, fault))?;
        }
        Ok(())
    }
}

/// Reads all lines of a text.
pub(crate) fn read_lines<A: Allocator + Copy>(
    alloc: A,
    text: &[u8],
) -> Result<Reading<'_, A>, WholeTextFault>
    ensures read { IfOk result (HasRead text.now) }
    ensures memory { IfErr result (λ fault. fault ≡ WholeTextFault.NoMemory) }
{
    let mut reading = Reading::new(alloc);
    let mut rest = text;
    let mut number = 1;
    while !rest.is_empty() {
        let (line, after) = first_line(rest, number, text.len() - rest.len());
        reading.take_in(line)?;
        if !line.finished {
            return Ok(reading);
        }
        rest = after;
        number += 1;
    }
    reading.end(number)?;
    Ok(reading)
}
