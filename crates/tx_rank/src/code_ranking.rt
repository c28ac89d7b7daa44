// The ranking of one code.
ghost use Rattle.std.specs.Prelude.{◌≡◌, ◌≢◌, ◌<◌, ℕ, None, IfOk};
ghost use Rattle.tx_cert.specs.Certificate.{rank_at as ranked_at};
ghost use Rattle.tx_rank.specs.inner.Marks.{IsPassed};
ghost use Rattle.tx_rank.specs.Judged.{IsJudged};

use crate::explore::{pass, unseen};
use crate::finding::Finding;
use crate::long_walk::long_walk;
use crate::mark::Mark;
use crate::routes::CodeNet;
use crate::short_walks::add_shorts;
use crate::written::put_ranks;
use std::alloc::Allocator;
use tx_cert::Cert;
use tx_plan::CodeId;
use tx_text::NoMemory;

/// Writes the ranks of a code that has no loop into the certificate, and adds its walks to short
/// exchanges and a long one.
fn judge_ranked<A: Allocator + Copy, N: CodeNet>(
    alloc: A,
    net: &N,
    marks: &[Mark],
    code: CodeId,
    limit: u8,
    spare: u8,
    cert: &mut Cert<A>,
    findings: &mut Vec<Finding<A>, A>,
) -> Result<(), NoMemory>
    requires passed { IsPassed (N.net net.now) marks.now }
    requires code { code < cert.old.codes }
    requires exchanges { cert.old.exchanges ≡ (N.net net.now).exchanges }
    requires blank { (x : ℕ) → ranked_at cert.old code x ≡ None }
    ensures judged { IfOk result (λ _. IsJudged (N.net net.now)
        code limit spare findings.old.items findings.new.items (ranked_at cert.new code)) }
    ensures others { IfOk result (λ _. (d x : ℕ)
        → d ≢ code → ranked_at cert.new d x ≡ ranked_at cert.old d x) }
    ensures codes { cert.new.codes ≡ cert.old.codes }
    ensures exchanges { cert.new.exchanges ≡ cert.old.exchanges }
{
    put_ranks(net, marks, code, cert);
    add_shorts(alloc, net, marks, code, spare, findings)?;
    match long_walk(alloc, net, marks, limit)? {
        Some(walk) => {
            findings.push(Finding::Long(code, walk))?;
            Ok(())
        }
        None => Ok(()),
    }
}

/// Adds what is wrong with a code, or writes its ranks into the certificate.
pub fn rank_code<A: Allocator + Copy, N: CodeNet>(
    alloc: A,
    net: &N,
    code: CodeId,
    limit: u8,
    spare: u8,
    cert: &mut Cert<A>,
    findings: &mut Vec<Finding<A>, A>,
) -> Result<(), NoMemory>
    requires code { code < cert.old.codes }
    requires exchanges { cert.old.exchanges ≡ (N.net net.now).exchanges }
    requires blank { (x : ℕ) → ranked_at cert.old code x ≡ None }
    ensures judged { IfOk result (λ _. IsJudged (N.net net.now)
        code limit spare findings.old.items findings.new.items (ranked_at cert.new code)) }
    ensures others { IfOk result (λ _. (d x : ℕ)
        → d ≢ code → ranked_at cert.new d x ≡ ranked_at cert.old d x) }
    ensures codes { cert.new.codes ≡ cert.old.codes }
    ensures exchanges { cert.new.exchanges ≡ cert.old.exchanges }
{
    let mut search = unseen(alloc, net)?;
    let closed = pass(net, &mut search)?;
    if closed {
        findings.push(Finding::Loop(code, search.into_walk()))?;
        return Ok(());
    }
    judge_ranked(
        alloc,
        net,
        &search.marks,
        code,
        limit,
        spare,
        cert,
        findings,
    )
}
