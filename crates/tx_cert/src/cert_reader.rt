// The readers of certificate texts.
ghost use Rattle.std.specs.Prelude.{◌≡◌, codes, IfOk, IfErr};
ghost use Rattle.tx_text.specs.declared.frame.FaultKind.TheVariants.{Word};
ghost use Rattle.tx_text.specs.Calls.{source_calls, CallsAtMost};
ghost use Rattle.tx_text.specs.Ends.{input};
ghost use Rattle.tx_text.specs.Told.{AtEnd};
ghost use Rattle.tx_text.specs.Said.{AnswersAs, told_fault};
ghost use Rattle.tx_cert.specs.Certificate.{no_ranks_for, IsCertificateOf};
ghost use Rattle.tx_cert.specs.CertText.{cert_of, is_memory, ReadsCert};

use crate::cert::Cert;
use crate::declaring::declare;
use crate::fault::{CertFault, CertWord};
use std::alloc::Allocator;
use std::marker::Model;
use tx_plan::Plan;
use tx_text::{Declares, FaultAt, FaultKind, Source, Words, read_slice, read_text};

/// A plan, and the ranks for it that the lines of a text declared so far.
#[derive(Drop)]
struct CertLines<'p, A: Allocator> {
    plan: &'p Plan<A>,
    cert: Cert<A>,
}

impl<'p, A: Allocator> Model for CertLines<'p, A> {
    ghost use Rattle.std.specs.Prelude.{◌≡◌, length};
    ghost use Rattle.std.specs.Coded.{codes};
    ghost use Rattle.tx_plan.specs.Plan.{Plan};
    ghost use Rattle.tx_cert.specs.Certificate.{Certificate};
    ghost use Rattle.tx_cert.specs.inner.Table.{certificate_code};

    ghost Value = { Plan × Certificate };

    ghost coded = { Prim.hlevel (codes, certificate_code) };

    ghost view = { λ lines. (lines.plan.now, lines.cert) };

    ghost invariant = { λ lines. (lines.cert.codes ≡ length lines.plan.now.codes)
        × (lines.cert.exchanges ≡ length lines.plan.now.exchanges) };
}

impl<'p, A: Allocator> CertLines<'p, A> {
    /// No ranks yet, with room for all, so that no line takes memory. `Err` means out of memory,
    /// and nothing else.
    fn new(alloc: A, plan: &'p Plan<A>) -> Result<CertLines<'p, A>, CertFault>
        ensures ok { IfOk result (λ lines. lines ≡ (plan.now, no_ranks_for plan.now)) }
        ensures err { IfErr result
            (λ fault. fault ≡ record { line = 1; kind = Word CertWord.NoMemory }) }
    {
        match Cert::new(alloc, plan) {
            Ok(cert) => Ok(CertLines { plan, cert }),
            Err(error) => Err(FaultAt {
                line: 1,
                kind: FaultKind::Word(CertWord::from(error)),
            }),
        }
    }

    /// The certificate.
    fn finish(self) -> Cert<A>
        ensures cert { result ≡ self.entry.1 }
        ensures fits { IsCertificateOf self.entry.0 result }
    {
        self.cert.rules();
        self.cert
    }
}

impl<'p, A: Allocator> Declares for CertLines<'p, A> {
    ghost use Rattle.std.specs.Prelude.{false};
    ghost use Rattle.tx_text.specs.inner.Beside.{beside};
    ghost use Rattle.tx_cert.specs.CertText.{declare};

    type Word = CertWord;

    ghost declares = { beside declare };

    ghost is_memory = { λ _. false };

    fn declare(&mut self, _version: u8, words: Words<'_>) -> Result<(), CertWord> {
        declare(self.plan, &mut self.cert, words)
    }
}

/// Reads a certificate of the plan from a text in memory. `Err` is the first fault, with its line.
pub fn read_cert<A: Allocator + Copy>(
    alloc: A,
    text: &[u8],
    plan: &Plan<A>,
) -> Result<Cert<A>, CertFault>
    ensures gives { AnswersAs is_memory (cert_of plan.now AtEnd text.now)
        (λ n. n ≡ 1) (told_fault result) }
    ensures fits { IfOk result (λ t. IsCertificateOf plan.now t) }
{
    let start = CertLines::new(alloc, plan)?;
    let lines = read_slice(alloc, b"CERT", 1, start, text)?;
    Ok(lines.finish())
}

/// Reads a certificate of the plan from a source, to its end, in pieces of any size and by at most
/// 4,294,967,295 calls. `Err` is the first fault, with its line.
pub fn read_cert_from<A: Allocator + Copy, R: Source>(
    alloc: A,
    source: &mut R,
    plan: &Plan<A>,
) -> Result<Cert<A>, CertFault>
    ensures gives { ReadsCert plan.now (input R.rest R.failed R.called source.old source.new)
        (told_fault result) }
    ensures calls { CallsAtMost R.called source_calls source.old source.new }
    ensures fits { IfOk result (λ t. IsCertificateOf plan.now t) }
{
    let start = CertLines::new(alloc, plan)?;
    let lines = read_text(alloc, b"CERT", 1, start, source)?;
    Ok(lines.finish())
}
