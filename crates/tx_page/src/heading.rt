// What was judged, and the verdict.
ghost use Rattle.std.specs.Prelude.{◌≡◌, [], ◌∷◌};
ghost use Rattle.hex.specs.Hex.{encode_lower};
ghost use Rattle.tx_html.specs.Shows.{Sets};
ghost use Rattle.tx_page.specs.Heading.{verdict_word, start_texts, verdict_texts, promise_texts, warning_texts, count_texts, digest_texts, heading_texts};

use crate::style::STYLE;
use hex::encode_to_slice;
use std::alloc::Allocator;
use tx_html::{PageSink, Part, set};
use tx_page_change::{count_lines, count_origins};
use tx_plan::{Limits, Plan};
use tx_svg::HEADS;

const START: &str = "<!doctype html>\n<html lang=\"en\"><head><meta charset=\"utf-8\"><meta \
name=\"viewport\" content=\"width=device-width\"><title>";

/// Writes the head of a page: what was judged, and the verdict.
pub fn write_heading<A: Allocator, W: PageSink>(
    name: &[u8],
    digest: &[u8; 32],
    version: &'static str,
    plan: &Plan<A>,
    limits: Limits,
    safe: bool,
    sink: &mut W,
)
    ensures { Sets W.seen sink.old sink.new
        (heading_texts name.now digest.now version.now plan.now safe limits.limit limits.spare) }
{
    write_start(name, safe, sink);
    write_counts(plan, sink);
    write_warning(count_lines(plan), sink);
    write_digest(digest, version, sink);
    write_verdict(if safe { "yes" } else { "no" }, safe, limits, sink);
    write_promise(safe, limits, sink);
}

/// Writes that a YES says nothing, if there is no line.
pub(crate) fn write_warning<W: PageSink>(lines: u64, sink: &mut W)
    ensures { Sets W.seen sink.old sink.new (warning_texts lines) }
{
    if lines > 0 {
        return;
    }
    set(
        &[
            Part::Own("<p class=\"warn\">This plan has "),
            Part::Text(b"no line"),
            Part::Own(". So no call starts, and a YES says nothing of its lists.</p>"),
        ],
        sink,
    );
}

/// The verdict in a word.
fn verdict_word(safe: bool) -> &'static [u8]
    ensures { result.now ≡ verdict_word safe }
{
    if safe { b"YES" } else { b"NO" }
}

pub(crate) fn write_start<W: PageSink>(name: &[u8], safe: bool, sink: &mut W)
    ensures { Sets W.seen sink.old sink.new (start_texts name.now safe) }
{
    set(
        &[
            Part::Own(START),
            Part::Text(name),
            Part::Own(": "),
            Part::Text(verdict_word(safe)),
            Part::Own("</title><style>"),
            Part::Own(STYLE),
            Part::Own("</style></head><body>"),
            Part::Own(HEADS),
            Part::Own("<main><h1>"),
            Part::Text(name),
            Part::Own("</h1>"),
        ],
        sink,
    );
}

/// Writes the verdict, and the numbers for which it was asked.
pub(crate) fn write_verdict<W: PageSink>(
    class: &'static str,
    safe: bool,
    limits: Limits,
    sink: &mut W,
)
    ensures { Sets W.seen sink.old sink.new
        (verdict_texts safe limits.limit limits.spare) }
{
    set(
        &[
            Part::Own("<p class=\"v "),
            Part::Own(class),
            Part::Own("\"><strong>"),
            Part::Text(verdict_word(safe)),
            Part::Own("</strong> transit limit <b>"),
            Part::Count(u64::from(limits.limit)),
            Part::Own("</b>, spare number <b>"),
            Part::Count(u64::from(limits.spare)),
            Part::Own("</b></p>"),
        ],
        sink,
    );
}

/// Writes in a sentence what the verdict says.
pub(crate) fn write_promise<W: PageSink>(safe: bool, limits: Limits, sink: &mut W)
    ensures { Sets W.seen sink.old sink.new
        (promise_texts safe limits.limit limits.spare) }
{
    if !safe {
        set(&[Part::Own(NO_PROMISE)], sink);
        return;
    }
    set(
        &[
            Part::Own(
                "<p>Whatever happens, and in whatever order, no call passes an exchange twice, or \
                 more transit exchanges than ",
            ),
            Part::Count(u64::from(limits.limit)),
            Part::Own(". As long as at most "),
            Part::Count(u64::from(limits.spare)),
            Part::Own(
                " of the groups are down, and every other group has a free circuit at the end \
                 that seizes it, a call is answered NC (no circuits) only after a second head-on \
                 collision.</p>",
            ),
        ],
        sink,
    );
}

const NO_PROMISE: &str =
    "<p>For these numbers the plan is not safe. What is wrong stands below.</p>";

fn write_counts<A: Allocator, W: PageSink>(plan: &Plan<A>, sink: &mut W)
    ensures { Sets W.seen sink.old sink.new (count_texts plan.now) }
{
    set(
        &[
            Part::Own("<dl><div><dt>Exchanges</dt><dd>"),
            Part::Amount(plan.exchanges() as u64),
            Part::Own("</dd></div><div><dt>Codes</dt><dd>"),
            Part::Amount(plan.codes() as u64),
            Part::Own("</dd></div><div><dt>Groups</dt><dd>"),
            Part::Amount(plan.groups() as u64),
            Part::Own("</dd></div><div><dt>Lists</dt><dd>"),
            Part::Amount(plan.routes() as u64),
            Part::Own("</dd></div><div><dt>Lines</dt><dd>"),
            Part::Amount(count_lines(plan)),
            Part::Own("</dd></div><div><dt>Exchanges where calls start</dt><dd>"),
            Part::Amount(count_origins(plan)),
            Part::Own("</dd></div></dl>"),
        ],
        sink,
    );
}

/// Writes the digest of the plan's text, and the version of the program.
fn write_digest<W: PageSink>(digest: &[u8; 32], version: &'static str, sink: &mut W)
    ensures { Sets W.seen sink.old sink.new (digest_texts digest.now version.now) }
{
    write_figures("<p class=\"m\">SHA-256 of the plan <code>", digest, sink);
    write_version("</code><br>judged by telexplan ", version, sink);
}

pub(crate) fn write_figures<W: PageSink>(label: &'static str, digest: &[u8; 32], sink: &mut W)
    ensures { Sets W.seen sink.old sink.new (encode_lower digest.now ∷ []) }
{
    let mut figures = [0u8; 64];
    if encode_to_slice(digest.as_slice(), figures.as_mut_slice()).is_err() {
        unreachable!();
    }
    set(&[Part::Own(label), Part::Text(&figures)], sink);
}

pub(crate) fn write_version<W: PageSink>(label: &'static str, version: &'static str, sink: &mut W)
    ensures { Sets W.seen sink.old sink.new (version.now ∷ []) }
{
    set(
        &[
            Part::Own(label),
            Part::Text(version.as_bytes()),
            Part::Own("</p>"),
        ],
        sink,
    );
}
