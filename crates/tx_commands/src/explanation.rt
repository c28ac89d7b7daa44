// What is written of codes.
ghost use Rattle.std.specs.Prelude.{option_map};
ghost use Rattle.std.specs.List.{flat_map};
ghost use Rattle.tx_text.specs.Wrote.{Wrote};
ghost use Rattle.tx_commands.specs.Entries.{texts};
ghost use Rattle.tx_commands.specs.Explanation.{entry_line, entry_text, told_text, explanation_text};

use crate::code_table::{Entry, tables};
use crate::known_words::is_asked;
use tx_text::{Sink, WriteFault, finish, put_parts};

/// Writes each entry that a line asks for by a word: its code with its name, what it means and what
/// to do about it; without a line to explain, a line for each code with its meaning.
pub fn write_explanation<W: Sink>(line: Option<&str>, sink: &mut W) -> Result<(), WriteFault>
    ensures { Wrote W.taken W.failed sink.old sink.new
        (explanation_text (option_map (λ l. l.now) line.entry)) result }
{
    write_tables(&tables(), line, sink)
}

fn write_tables<W: Sink>(
    tables: &[&[Entry]],
    line: Option<&str>,
    sink: &mut W,
) -> Result<(), WriteFault>
    ensures { Wrote W.taken W.failed sink.old sink.new
        (flat_map (λ t. flat_map (λ e. told_text (option_map (λ l. l.now) line.entry) (texts e))
        t.now) tables.now) result }
{
    for i in 0..tables.len() {
        write_entries(tables[i], line, sink)?;
    }
    Ok(())
}

fn write_entries<W: Sink>(
    entries: &[Entry],
    line: Option<&str>,
    sink: &mut W,
) -> Result<(), WriteFault>
    ensures { Wrote W.taken W.failed sink.old sink.new
        (flat_map (λ e. told_text (option_map (λ l. l.now) line.entry) (texts e)) entries.now)
        result }
{
    for i in 0..entries.len() {
        write_told(&entries[i], line, sink)?;
    }
    Ok(())
}

fn write_told<W: Sink>(entry: &Entry, line: Option<&str>, sink: &mut W) -> Result<(), WriteFault>
    ensures { Wrote W.taken W.failed sink.old sink.new
        (told_text (option_map (λ l. l.now) line.entry) (texts entry.now)) result }
{
    match line {
        Some(line) if is_asked(line, entry) => write_entry(entry, sink),
        Some(_) => Ok(()),
        None => write_line(entry, sink),
    }
}

fn write_entry<W: Sink>(entry: &Entry, sink: &mut W) -> Result<(), WriteFault>
    ensures { Wrote W.taken W.failed sink.old sink.new
        (entry_text (texts entry.now)) result }
{
    let [code, name, meaning, advice] = entry;
    put_parts(
        &[
            code.as_bytes(),
            b" ",
            name.as_bytes(),
            b"\n",
            meaning.as_bytes(),
            b"\nWhat to do: ",
            advice.as_bytes(),
            b"\n",
        ],
        sink,
    );
    finish(sink)
}

fn write_line<W: Sink>(entry: &Entry, sink: &mut W) -> Result<(), WriteFault>
    ensures { Wrote W.taken W.failed sink.old sink.new
        (entry_line (texts entry.now)) result }
{
    let [code, name, meaning, _] = entry;
    put_parts(
        &[
            code.as_bytes(),
            b" ",
            name.as_bytes(),
            b": ",
            meaning.as_bytes(),
            b"\n",
        ],
        sink,
    );
    finish(sink)
}
