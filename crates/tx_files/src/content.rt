// The texts that go into files.
ghost use Rattle.std.specs.Prelude.{◌≡◌, map, option_map};
ghost use Rattle.tx_text.specs.Wrote.{Wrote};
ghost use Rattle.tx_cert.specs.CertText.{cert_written};
ghost use Rattle.tx_audit.specs.Scripts.{script_written};
ghost use Rattle.tx_files.specs.Made.{content_text, shown_plan, shown_events, plan_file, made_texts};

use crate::made::{CounterScript, Made, MadeText, Shown};
use std::alloc::{Allocator, Global};
use tx_audit::write_counter;
use tx_cert::{Cert, write_cert};
use tx_plan::Plan;
use tx_plantext::write_plan;
use tx_text::{Sink, WriteFault, write_bytes};

/// What goes into a file that a command makes.
#[derive(Clone, Copy)]
pub enum Content<'a, A: Allocator = Global> {
    /// The text of a plan, revised for the plan that was made.
    Text(&'a [u8]),
    /// The plan that was made, as it is written.
    Plan(&'a Plan<A>),
    /// A certificate of a plan.
    Cert(&'a Plan<A>, &'a Cert<A>),
    /// The script of a call that goes along the walk of a finding.
    Script(&'a CounterScript<A>),
}

impl<A: Allocator> Made<A> {
    /// What goes into files: the text of the plan, the certificate and the script, each if there is
    /// one.
    pub fn contents(&self) -> [Option<Content<'_, A>>; 3]
        ensures { map (option_map content_text) result ≡ made_texts self.now }
    {
        [
            self.text_content(),
            self.cert_content(),
            self.script_content(),
        ]
    }

    fn text_content(&self) -> Option<Content<'_, A>>
        ensures { option_map content_text result
            ≡ plan_file (shown_plan self.now.shown) self.now.text }
    {
        match &self.text {
            Some(MadeText::Revised(text)) => Some(Content::Text(text.as_slice())),
            Some(MadeText::Written) => Some(Content::Plan(self.shown.plan())),
            None => None,
        }
    }

    fn cert_content(&self) -> Option<Content<'_, A>>
        ensures { option_map content_text result
            ≡ option_map (cert_written (shown_plan self.now.shown)) self.now.cert }
    {
        match &self.cert {
            Some(cert) => Some(Content::Cert(self.shown.plan(), cert)),
            None => None,
        }
    }

    fn script_content(&self) -> Option<Content<'_, A>>
        ensures { option_map content_text result
            ≡ option_map (script_written (shown_plan self.now.shown))
            (shown_events self.now.shown) }
    {
        match &self.shown {
            Shown::Script(script) => Some(Content::Script(script)),
            Shown::Plan(_) => None,
        }
    }
}

/// Writes what goes into a file.
pub fn write_content<A: Allocator, W: Sink>(
    content: Content<'_, A>,
    sink: &mut W,
) -> Result<(), WriteFault>
    ensures { Wrote W.taken W.failed sink.old sink.new (content_text content.entry) result }
{
    match content {
        Content::Text(text) => write_bytes(text, sink),
        Content::Plan(plan) => write_plan(plan, sink),
        Content::Cert(plan, cert) => write_cert(cert, plan, sink),
        Content::Script(script) => write_counter(&script.plan, script.events.as_slice(), sink),
    }
}
