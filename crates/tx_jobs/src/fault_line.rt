// The line that says why a job stopped.
ghost use Rattle.tx_text.specs.Wrote.{Wrote};
ghost use Rattle.tx_plantext.specs.PlanFaults.{fault_row};
ghost use Rattle.tx_jobs.specs.JobFaults.{fault_line, text_fault_line};

use crate::job_fault::JobFault;
use itoa::Buffer;
use tx_plantext::PlanFault;
use tx_text::{Sink, WriteFault, finish, put_parts, write_bytes};

/// Writes the line that reports a fault, as `telexplan: plan line 5: P11 Overlap`, with its LF.
pub fn write_fault<W: Sink>(fault: &JobFault, sink: &mut W) -> Result<(), WriteFault>
    ensures { Wrote W.taken W.failed sink.old sink.new (fault_line fault.now) result }
{
    match fault {
        JobFault::Plan(fault) => write_plan_fault(b"plan", fault, sink),
        JobFault::Cert(fault) => {
            let row = tx_cert::code_and_name(fault.kind);
            write_text_fault(b"certificate", fault.line, row, sink)
        }
        JobFault::Script(fault) => {
            let row = tx_script::code_and_name(fault.kind);
            write_text_fault(b"script", fault.line, row, sink)
        }
        JobFault::Read => write_bytes(b"telexplan: read fault\n", sink),
        JobFault::Write => write_bytes(b"telexplan: write fault\n", sink),
        JobFault::NoMemory => write_bytes(b"telexplan: no memory\n", sink),
    }
}

/// Writes the line of a fault of a plan's text.
pub fn write_plan_fault<W: Sink>(
    text: &[u8],
    fault: &PlanFault,
    sink: &mut W,
) -> Result<(), WriteFault>
    ensures { Wrote W.taken W.failed sink.old sink.new
        (text_fault_line text.now fault.now.line (fault_row fault.now.kind)) result }
{
    let row = tx_plantext::code_and_name(fault.kind);
    write_text_fault(text, fault.line, row, sink)
}

/// Writes the line of a fault of a text: which text it is, and its row, of a code and a name.
pub fn write_text_fault<'a, W: Sink>(
    text: &'a [u8],
    line: u64,
    row: (&'a [u8], &'a [u8]),
    sink: &mut W,
) -> Result<(), WriteFault>
    ensures { Wrote W.taken W.failed sink.old sink.new
        (text_fault_line text.now line (row.entry.0.now, row.entry.1.now)) result }
{
    let mut number = Buffer::new();
    put_parts(
        &[
            b"telexplan: ",
            text,
            b" line ",
            number.format(line).as_bytes(),
            b": ",
            row.0,
            b" ",
            row.1,
            b"\n",
        ],
        sink,
    );
    finish(sink)
}
