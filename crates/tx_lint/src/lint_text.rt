// The writer of the faults or warnings of a text.
ghost use Rattle.std.specs.Prelude.{◌≡◌, map, option_map};
ghost use Rattle.std.specs.List.{flat_map};
ghost use Rattle.tx_text.specs.Puts.{Puts};
ghost use Rattle.tx_text.specs.Wrote.{Wrote};
ghost use Rattle.tx_lint.specs.LintText.{word_text, told_front, needing_end, more_end, fault_line, warning_word, warning_line};
ghost use Rattle.tx_lint.specs.Lints.{told_held, lint_held, lint_text};

use crate::escaped::write_escaped;
use crate::gathering::Told;
use crate::linting::Lint;
use crate::warning::Warning;
use itoa::Buffer;
use std::alloc::Allocator;
use tx_plan::Plan;
use tx_plantext::code_and_name;
use tx_risk::Risks;
use tx_text::{Sink, WriteFault, finish, put_bytes, put_parts};

/// Writes a line for each fault or each warning, as `PLAN.txt:5: P9 Unknown SOUTH`, with the name
/// of the file of the text.
pub fn write_lint<A: Allocator, W: Sink>(
    lint: &Lint<'_, A>,
    file: &[u8],
    sink: &mut W,
) -> Result<(), WriteFault>
    ensures { Wrote W.taken W.failed sink.old sink.new
        (lint_text file.now (lint_held lint.now)) result }
{
    match lint {
        Lint::Faults(faults) => write_faults(faults, file, sink),
        Lint::Warnings(plan, risks, warnings) => write_warnings(plan, risks, warnings, file, sink),
    }
}

fn write_faults<W: Sink>(told: &[Told<'_>], file: &[u8], sink: &mut W) -> Result<(), WriteFault>
    ensures { Wrote W.taken W.failed sink.old sink.new
        (flat_map (fault_line file.now) (map told_held told.now)) result }
{
    for i in 0..told.len() {
        write_fault(told[i], file, sink)?;
    }
    Ok(())
}

fn write_fault<W: Sink>(told: Told<'_>, file: &[u8], sink: &mut W) -> Result<(), WriteFault>
    ensures { Wrote W.taken W.failed sink.old sink.new
        (fault_line file.now (told_held told.entry)) result }
{
    let fault = told.fault;
    write_front(
        file,
        fault.line,
        code_and_name(fault.kind),
        fault.word,
        sink,
    );
    write_needing(told.needing, sink);
    finish(sink)
}

fn write_warnings<A: Allocator, W: Sink>(
    plan: &Plan<A>,
    risks: &Risks<A>,
    warnings: &[(u64, Warning)],
    file: &[u8],
    sink: &mut W,
) -> Result<(), WriteFault>
    ensures { Wrote W.taken W.failed sink.old sink.new
        (flat_map (warning_line file.now plan.now risks.now) warnings.now) result }
{
    for i in 0..warnings.len() {
        write_warning(plan, risks, warnings[i], file, sink)?;
    }
    Ok(())
}

fn write_warning<A: Allocator, W: Sink>(
    plan: &Plan<A>,
    risks: &Risks<A>,
    warning: (u64, Warning),
    file: &[u8],
    sink: &mut W,
) -> Result<(), WriteFault>
    ensures { Wrote W.taken W.failed sink.old sink.new
        (warning_line file.now plan.now risks.now warning) result }
{
    let (line, warning) = warning;
    let word = warning_word(plan, risks, warning);
    write_front(file, line, warning.code_and_name(), word, sink);
    write_more(warning.more_codes(), sink);
    finish(sink)
}

/// The code, the group, the risk or the exchange that a warning speaks of.
fn warning_word<'a, A: Allocator>(
    plan: &'a Plan<A>,
    risks: &'a Risks<A>,
    warning: Warning,
) -> Option<&'a [u8]>
    ensures { option_map (λ w. w.now) result ≡ warning_word plan.now risks.now warning }
{
    match warning {
        Warning::NoLines(code, _)
        | Warning::UnusedList(code, _)
        | Warning::NoList(code)
        | Warning::Ambiguous(code)
        | Warning::Unlisted(code) => Some(plan.code_figures(code)),
        Warning::UnusedGroup(group) => Some(plan.group_name(group)),
        Warning::SharedRisk(index) => Some(risks.name(index)),
        Warning::NoGroup(exchange) => Some(plan.exchange_name(exchange)),
        Warning::NothingToJudge | Warning::UnusedBar => None,
    }
}

/// Writes a line as far as its word.
fn write_front<'a, W: Sink>(
    file: &'a [u8],
    line: u64,
    row: (&'a [u8], &'a [u8]),
    word: Option<&'a [u8]>,
    sink: &mut W,
)
    ensures { Puts W.taken W.failed sink.old sink.new
        (told_front file.now line (row.entry.0.now, row.entry.1.now)
        (option_map (λ w. w.now) word.entry)) }
{
    let mut number = Buffer::new();
    let line = number.format(line).as_bytes();
    write_escaped(file, sink);
    put_parts(&[b":", line, b": ", row.0, b" ", row.1], sink);
    write_word(word, sink);
}

/// Writes a word with a space before it, if there is one.
fn write_word<W: Sink>(word: Option<&[u8]>, sink: &mut W)
    ensures { Puts W.taken W.failed sink.old sink.new
        (word_text (option_map (λ w. w.now) word.entry)) }
{
    if let Some(word) = word {
        put_parts(&[b" ", word], sink);
    }
}

/// Writes how many lines need what a line at fault has left undeclared, and the end of the line.
fn write_needing<W: Sink>(needing: u64, sink: &mut W)
    ensures { Puts W.taken W.failed sink.old sink.new (needing_end needing) }
{
    if needing == 0 {
        put_bytes(b"\n", sink)
    } else if needing == 1 {
        put_bytes(b" .. and 1 line that needs it\n", sink)
    } else {
        let mut number = Buffer::new();
        let needing = number.format(needing).as_bytes();
        put_parts(&[b" .. and ", needing, b" lines that need it\n"], sink)
    }
}

/// Writes how many more codes a warning is of, and the end of the line.
fn write_more<W: Sink>(more: usize, sink: &mut W)
    ensures { Puts W.taken W.failed sink.old sink.new (more_end more) }
{
    if more == 0 {
        put_bytes(b"\n", sink)
    } else {
        let mut number = Buffer::new();
        let more = number.format(more).as_bytes();
        put_parts(&[b" .. and ", more, b" more\n"], sink)
    }
}
