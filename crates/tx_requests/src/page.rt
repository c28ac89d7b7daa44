// The command `page`.
ghost use Rattle.std.specs.Prelude.{◌≡◌, option_map};
ghost use Rattle.tx_text.specs.Words.{before};
ghost use Rattle.tx_html.specs.Shows.{Showed};
ghost use Rattle.tx_page.specs.Page.{page_texts};
ghost use Rattle.tx_page.specs.declared.subject.Subject.{Subject as SubjectNow};
ghost use Rattle.tx_files.specs.PageReading.{AreForPage};
ghost use Rattle.tx_requests.specs.Page.{is_line_end, title_of, groups_asked, exchange_asked, PageAnswers, PagePrints, PageEnds, IsSubjectOf};

use crate::page_change::{FoundChange, change_of};
use crate::page_codes::refuse_missing;
use crate::page_found::{Found, found_of, pictures_of};
use crate::page_shown::shown_change;
use crate::request::Request;
use sha2::{Digest, Sha256};
use std::alloc::{Allocator, Global};
use tx_commands::{Down, PageRequest, VERSION};
use tx_files::{CommandFault, Ending, PageTexts};
use tx_html::PageSink;
use tx_page::{Subject, is_safe, write_page};
use tx_svg::Picture;
use tx_text::{Sink, WriteFault};

/// What a page shows: what was read, and what was found of it.
#[derive(Drop)]
pub struct Paged<A: Allocator = Global> {
    pub texts: PageTexts<A>,
    pub found: Found<A>,
    pub change: Option<FoundChange<A>>,
    /// Pictures of the lists for codes.
    pub pictures: Vec<Picture<A>, A>,
}

impl<A: Allocator + Copy> Request<A> for PageRequest {
    type Texts = PageTexts<A>;

    type Answer = Paged<A>;

    ghost fits = { AreForPage };

    ghost answers = { PageAnswers };

    ghost prints = { PagePrints };

    ghost ends = { λ _. PageEnds };

    fn answer(&self, alloc: A, texts: Self::Texts) -> Result<Self::Answer, CommandFault> {
        refuse_missing(alloc, &texts.plan.plan, self.code.as_deref())?;
        let found = found_of(alloc, &texts.plan.plan, self.limits, &texts.risks)?;
        let change = change_of(alloc, &texts, &found, self.limits)?;
        let pictures = pictures_of(alloc, self, &texts, &found, &change)?;
        Ok(Paged {
            texts,
            found,
            change,
            pictures,
        })
    }

    fn print<W: Sink>(&self, answer: &Self::Answer, out: &mut W) -> Result<(), WriteFault> {
        show_page(self, answer, out)
    }

    fn end(&self, _alloc: A, answer: Self::Answer) -> Result<Ending<A>, CommandFault> {
        let safe = is_safe(&answer.found.ranking);
        if safe {
            Ok(Ending::of(0))
        } else {
            Ok(Ending::of(1))
        }
    }
}

/// Writes the page, into any sink of pages.
pub fn show_page<A: Allocator, W: PageSink>(
    request: &PageRequest,
    answer: &Paged<A>,
    sink: &mut W,
) -> Result<(), WriteFault>
    ensures { (s : SubjectNow A) × IsSubjectOf request.now answer.now s
        × Showed W.seen sink.old sink.new (page_texts s) result }
{
    let subject = subject_of(request, answer);
    write_page(&subject, sink)
}

/// What the page is about.
fn subject_of<'a, A: Allocator>(request: &'a PageRequest, answer: &'a Paged<A>) -> Subject<'a, A>
    ensures { IsSubjectOf request.now answer.now result }
{
    let text = answer.texts.plan.text.as_slice();
    Subject {
        name: title_of(request.plan.as_bytes(), text),
        digest: Sha256::digest(text),
        version: VERSION,
        plan: &answer.texts.plan.plan,
        limits: request.limits,
        down: groups_asked(&request.down),
        down_exchange: exchange_asked(&request.down),
        ranking: &answer.found.ranking,
        grade: &answer.found.grade,
        risks: &answer.texts.risks,
        change: shown_change(request, answer),
        outcomes: answer.found.outcomes.as_slice(),
        pictures: answer.pictures.as_slice(),
    }
}

/// The word for groups that are to be down, if there is one.
fn groups_asked(down: &Option<Down>) -> Option<&[u8]>
    ensures { option_map (λ w. w.now) result ≡ groups_asked down.now }
{
    Some(down.as_ref()?.groups.as_ref()?.as_bytes())
}

/// The name of an exchange of which all groups are to be down, if there is one.
fn exchange_asked(down: &Option<Down>) -> Option<&[u8]>
    ensures { option_map (λ w. w.now) result ≡ exchange_asked down.now }
{
    Some(down.as_ref()?.exchange.as_ref()?.as_bytes())
}

/// The title of a page: what follows `# NAME ` in the first line of the text, or the name of the
/// file.
pub(crate) fn title_of<'a>(file: &'a [u8], text: &'a [u8]) -> &'a [u8]
    ensures { result.now ≡ title_of file.now text.now }
{
    match text.strip_prefix(b"# NAME ") {
        Some(rest) => {
            let name = first_line(rest);
            if name.is_empty() { file } else { name }
        }
        None => file,
    }
}

/// What is before the end of the first line.
fn first_line(text: &[u8]) -> &[u8]
    ensures { result.now ≡ before is_line_end text.now }
{
    for i in 0..text.len() {
        if text[i] == b'\n' || text[i] == b'\r' {
            return &text[..i];
        }
    }
    text
}
