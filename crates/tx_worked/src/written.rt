// Certificates and plans that are written and read back.
use crate::cases::{Refusing, Stop, Told, tell, tell_broken};
use std::alloc::{Allocator, Global};
use tx_cert::{Cert, CertFault, CertWord, read_cert, read_cert_from, write_cert};
use tx_plan::{CodeId, ExchangeId, Plan};
use tx_plantext::{read_plan, write_plan};
use tx_text::{FaultKind, FrameFault, MemorySource};

/// Whether two certificates of the plan give the same ranks.
fn same_ranks(plan: &Plan, one: &Cert, other: &Cert) -> bool {
    for code in 0..plan.codes() {
        for exchange in 0..plan.exchanges() {
            let code = CodeId::of(code);
            let exchange = ExchangeId::of(exchange);
            if one.rank(code, exchange) != other.rank(code, exchange) {
                return false;
            }
        }
    }
    true
}

/// Whether what was read is a certificate with the same ranks.
fn is_same(plan: &Plan, cert: &Cert, read: Result<Cert, CertFault>) -> bool {
    match read {
        Ok(back) => same_ranks(plan, cert, &back),
        Err(_) => false,
    }
}

/// Whether a text reads as a certificate, at once and in pieces.
fn reads_as(alloc: Global, plan: &Plan, cert: &Cert, text: &[u8]) -> bool {
    for piece in [1usize, 2, 7, 4096] {
        let mut source = MemorySource::new(text, piece, None);
        if !is_same(plan, cert, read_cert_from(alloc, &mut source, plan)) {
            return false;
        }
    }
    is_same(plan, cert, read_cert(alloc, text, plan))
}

/// Reads a certificate, which reads the same in pieces, and writes it. What is written reads back.
fn write_back_cert(alloc: Global, plan: &Plan, text: &[u8], out: &mut Told) -> Result<(), Stop> {
    let cert = read_cert(alloc, text, plan)?;
    let mut written = Told::new(alloc);
    let _ = write_cert(&cert, plan, &mut written);
    tell(written.text(), out);
    if !reads_as(alloc, plan, &cert, text) {
        tell_broken(b"not the same in pieces", 0, out);
    }
    if !reads_as(alloc, plan, &cert, written.text()) {
        tell_broken(b"not read back", 0, out);
    }
    Ok(())
}

/// Whether memory ran out for a certificate that was read.
fn has_wanted<A: Allocator>(read: Result<Cert<A>, CertFault>) -> bool {
    match read {
        Ok(_) => false,
        Err(CertFault { line: 1, kind }) => matches!(
            kind,
            FaultKind::Word(CertWord::NoMemory) | FaultKind::Frame(FrameFault::NoMemory)
        ),
        Err(_) => false,
    }
}

/// Whether memory runs out for a new certificate, or for one that is read, at once or in pieces.
fn cert_wants<A: Allocator + Copy>(alloc: A, plan: &Plan<A>, cert: &[u8]) -> bool {
    let mut source = MemorySource::new(cert, 7, None);
    Cert::new(alloc, plan).is_err()
        || has_wanted(read_cert(alloc, cert, plan))
        || has_wanted(read_cert_from(alloc, &mut source, plan))
}

/// Whether memory runs out for a plan, which is a good one, or for its certificate.
fn wants<A: Allocator + Copy>(alloc: A, plan: &[u8], cert: &[u8]) -> bool {
    match read_plan(alloc, plan) {
        Ok(plan) => cert_wants(alloc, &plan, cert),
        Err(_) => true,
    }
}

/// Refuses each request for memory in turn.
fn try_refusals(alloc: Global, plan: &[u8], cert: &[u8], out: &mut Told) {
    for request in 1..1_000_000u64 {
        let refusing = Refusing::new(alloc, request);
        let wants = wants(&refusing, plan, cert);
        if wants != refusing.has_refused() {
            tell_broken(b"certificate, refused request", request, out);
        }
        if !wants {
            break;
        }
    }
}

/// Writes a new certificate of a plan, reads one and writes it, reads back what was written, and
/// refuses each request for memory.
pub(crate) fn play_cert(
    alloc: Global,
    plan: &[u8],
    cert: &[u8],
    out: &mut Told,
) -> Result<(), Stop> {
    try_refusals(alloc, plan, cert, out);
    let plan = read_plan(alloc, plan)?;
    let new = Cert::new(alloc, &plan)?;
    let _ = write_cert(&new, &plan, out);
    write_back_cert(alloc, &plan, cert, out)
}

/// Reads a plan and writes it: nothing where it is refused.
fn write_again(alloc: Global, plan: &[u8], out: &mut Told) {
    if let Ok(plan) = read_plan(alloc, plan) {
        let _ = write_plan(&plan, out);
    }
}

/// Reads a plan and writes it. What was written reads back, and is written the same.
pub(crate) fn play_plan(alloc: Global, plan: &[u8], out: &mut Told) {
    let mut written = Told::new(alloc);
    write_again(alloc, plan, &mut written);
    tell(written.text(), out);
    let mut again = Told::new(alloc);
    write_again(alloc, written.text(), &mut again);
    if !again.is(written.text()) {
        tell_broken(b"not written the same again", 0, out);
    }
}
