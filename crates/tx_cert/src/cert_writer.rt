// How certificates are written.
#![tactic(auto, using(tx_text::proofs::Putting::puts_none, tx_text::proofs::Ranges::lines_more, tx_text::proofs::Ranges::lines_done))]

ghost use Rattle.std.specs.Prelude.{◌≡◌, length, true, OnOk, OnErr};
ghost use Rattle.std.specs.Io.KnownBytes.{append_known};
ghost use Rattle.std.specs.List.{flat_map, range_with_len};
ghost use Rattle.tx_text.specs.Ends.{StopsIn};
ghost use Rattle.tx_text.specs.Puts.{Puts};
ghost use Rattle.tx_text.specs.Wrote.{Wrote};
ghost use Rattle.tx_text.specs.Written.{line_written};
ghost use Rattle.tx_cert.specs.Certificate.{rank_at};
ghost use Rattle.tx_cert.specs.CertText.{rank_lines, code_lines, cert_lines, cert_written};

use crate::cert::Cert;
use itoa::Buffer;
use std::alloc::Allocator;
use tx_plan::{CodeId, ExchangeId, Plan};
use tx_text::{Sink, WriteFault, finish, put_bytes, put_parts};

/// Writes the certificate: its header, its ranks by codes and then by exchanges, each in the plan's
/// order, and END. Where the sink fails, a front of the text was taken.
pub fn write_cert<A: Allocator, W: Sink>(
    cert: &Cert<A>,
    plan: &Plan<A>,
    sink: &mut W,
) -> Result<(), WriteFault>
    ensures { Wrote W.taken W.failed sink.old sink.new (cert_written plan.now cert.now) result }
{
    put_bytes(b"CERT 1\n", sink);
    write_ranks(cert, plan, sink);
    put_bytes(b"END\n", sink);
    finish(sink)
}

/// Writes the lines of all ranks.
fn write_ranks<A: Allocator, W: Sink>(cert: &Cert<A>, plan: &Plan<A>, sink: &mut W)
    ensures { Puts W.taken W.failed sink.old sink.new
        (flat_map line_written (cert_lines plan.now cert.now)) }
{
    for index in 0..plan.codes() {
        write_code(cert, plan, CodeId::of(index), sink);
    }
}

/// Writes the lines of the ranks for a code.
fn write_code<A: Allocator, W: Sink>(cert: &Cert<A>, plan: &Plan<A>, code: CodeId, sink: &mut W)
    ensures { Puts W.taken W.failed sink.old sink.new (flat_map line_written
        (code_lines plan.now cert.now code (range_with_len 0 (length plan.now.exchanges)))) }
{
    for index in 0..plan.exchanges() {
        write_rank(cert, plan, code, ExchangeId::of(index), sink);
    }
}

/// Writes the line of an exchange's rank for a code, if it has one.
fn write_rank<A: Allocator, W: Sink>(
    cert: &Cert<A>,
    plan: &Plan<A>,
    code: CodeId,
    exchange: ExchangeId,
    sink: &mut W,
)
    ensures { Puts W.taken W.failed sink.old sink.new (flat_map line_written
        (rank_lines plan.now code exchange (rank_at cert.now code exchange))) }
{
    let Some(rank) = cert.rank(code, exchange) else {
        return;
    };
    let mut buffer = Buffer::new();
    let rank = buffer.format(rank).as_bytes();
    let figures = plan.code_figures(code);
    let name = plan.exchange_name(exchange);
    put_parts(
        &[
            b"RANK ".as_slice(),
            figures,
            b" ".as_slice(),
            name,
            b" ".as_slice(),
            rank,
            b"\n".as_slice(),
        ],
        sink,
    );
}
