// The line that says why a command stopped.
ghost use Rattle.tx_text.specs.Puts.{Puts};
ghost use Rattle.tx_text.specs.Wrote.{Wrote};
ghost use Rattle.tx_files.specs.FaultLines.{command_line, hint_text, missing_line, homes_text, differing_text, contradiction_line, stage_count_line};

use crate::fault::CommandFault;
use crate::missing::Missing;
use itoa::Buffer;
use tx_jobs::{write_fault, write_plan_fault, write_text_fault};
use tx_join::Contradiction;
use tx_text::{InlineBytes, Sink, WriteFault, finish, put_bytes, put_parts, write_bytes};

/// Writes the line that reports a fault, as `telexplan: old plan line 5: P11 Overlap`, with its LF.
pub fn write_command_fault<W: Sink>(fault: &CommandFault, sink: &mut W) -> Result<(), WriteFault>
    ensures { Wrote W.taken W.failed sink.old sink.new (command_line fault.now) result }
{
    match fault {
        CommandFault::Job(fault) => write_fault(fault, sink),
        CommandFault::OldPlan(fault) => write_plan_fault(b"old plan", fault, sink),
        CommandFault::NewPlan(fault) => write_plan_fault(b"new plan", fault, sink),
        CommandFault::Risks(fault) => {
            let row = tx_risk::code_and_name(fault.kind);
            write_text_fault(b"risks", fault.line, row, sink)
        }
        CommandFault::Done(fault) => {
            let row = tx_order::code_and_name(fault.kind);
            write_text_fault(b"done", fault.line, row, sink)
        }
        CommandFault::Contradiction(contradiction) => write_contradiction(contradiction, sink),
        CommandFault::TooManyTogether => {
            write_bytes(
                b"telexplan: both plans together have too many exchanges, codes or groups\n",
                sink,
            )
        }
        CommandFault::NoSuchStage(stages) => write_stage_count(*stages, sink),
        CommandFault::NoSuchName(missing) => write_missing(missing, sink),
        CommandFault::NotInOldPlan => {
            write_bytes(
                b"telexplan: no such exchange or code in the old plan\n",
                sink,
            )
        }
    }
}

/// Writes that the plan does not have a name.
fn write_missing<W: Sink>(missing: &Missing, sink: &mut W) -> Result<(), WriteFault>
    ensures { Wrote W.taken W.failed sink.old sink.new (missing_line missing.now) result }
{
    put_parts(
        &[
            b"telexplan: no such ",
            missing.named.word(),
            b" in the plan",
        ],
        sink,
    );
    put_hint(missing, sink);
    finish(sink)
}

/// Writes the end of the line: the name that was probably meant, if there is one.
pub fn put_hint<W: Sink>(missing: &Missing, sink: &mut W)
    ensures { Puts W.taken W.failed sink.old sink.new (hint_text missing.now.near) }
{
    match &missing.near {
        Some(near) => put_parts(&[b"; did you mean ", near.bytes(), b"?\n"], sink),
        None => put_bytes(b"\n", sink),
    }
}

/// Writes what two plans declare in contradiction, and the line of each text that does.
fn write_contradiction<W: Sink>(
    contradiction: &Contradiction,
    sink: &mut W,
) -> Result<(), WriteFault>
    ensures { Wrote W.taken W.failed sink.old sink.new (contradiction_line contradiction.now)
        result }
{
    let word = contradiction.kind.word();
    let (old, new) = (contradiction.old_line, contradiction.new_line);
    write_differing(old, new, word, contradiction.name.bytes(), sink);
    write_homes(contradiction.homes, sink);
    finish(sink)
}

/// Writes that a line of the old plan and one of the new plan differ, with the word that begins
/// them and the name in them.
fn write_differing<'a, W: Sink>(old: u64, new: u64, word: &'a [u8], name: &'a [u8], sink: &mut W)
    ensures { Puts W.taken W.failed sink.old sink.new
        (differing_text old new word.now name.now) }
{
    let mut first = Buffer::new();
    let mut second = Buffer::new();
    let old = first.format(old).as_bytes();
    let new = second.format(new).as_bytes();
    put_parts(
        &[
            b"telexplan: old plan line ",
            old,
            b" and new plan line ",
            new,
            b": ",
            word,
            b" ",
            name,
            b" differs",
        ],
        sink,
    );
}

/// Writes the homes of a code, and how it can move.
fn write_homes<W: Sink>(homes: Option<(InlineBytes<8>, InlineBytes<8>)>, sink: &mut W)
    ensures { Puts W.taken W.failed sink.old sink.new (homes_text homes) }
{
    match homes {
        Some(homes) => put_parts(
            &[
                b": home ",
                homes.0.bytes(),
                b", then ",
                homes.1.bytes(),
                b": drop it in one change, admit it in the next\n",
            ],
            sink,
        ),
        None => put_bytes(b"\n", sink),
    }
}

/// Writes how many stages there are.
fn write_stage_count<W: Sink>(stages: usize, sink: &mut W) -> Result<(), WriteFault>
    ensures { Wrote W.taken W.failed sink.old sink.new (stage_count_line stages) result }
{
    let mut number = Buffer::new();
    let stages = number.format(stages).as_bytes();
    put_parts(
        &[b"telexplan: no such stage: the order has ", stages, b"\n"],
        sink,
    );
    finish(sink)
}
