// What each line of a certificate text declares.
ghost use Rattle.std.specs.Prelude.{◌≡◌, length, Ok, Err, IfOk, IfErr};
ghost use Rattle.tx_text.specs.Words.{number_of};
ghost use Rattle.tx_plan.specs.Plan.{code_named, exchange_named};
ghost use Rattle.tx_cert.specs.CertText.{declare, rank_line, rank_said};

use crate::cert::Cert;
use crate::fault::CertWord;
use std::alloc::Allocator;
use tx_plan::Plan;
use tx_text::{Words, number};

/// A rank for a code and an exchange of the plan, which have none yet.
fn add_rank<A: Allocator>(
    plan: &Plan<A>,
    cert: &mut Cert<A>,
    code: &[u8],
    exchange: &[u8],
    rank: &[u8],
) -> Result<(), CertWord>
    requires codes { cert.old.codes ≡ length plan.now.codes }
    requires exchanges { cert.old.exchanges ≡ length plan.now.exchanges }
    ensures ok { IfOk result (λ _. rank_said cert.old (code_named plan.now code.now)
        (exchange_named plan.now exchange.now) (number_of 65535 rank.now) ≡ Ok cert.new) }
    ensures err { IfErr result (λ e. rank_said cert.old (code_named plan.now code.now)
        (exchange_named plan.now exchange.now) (number_of 65535 rank.now) ≡ Err e) }
    ensures codes { cert.new.codes ≡ cert.old.codes }
    ensures exchanges { cert.new.exchanges ≡ cert.old.exchanges }
{
    let Some(code) = plan.code_named(code) else {
        return Err(CertWord::UnknownName);
    };
    let Some(exchange) = plan.exchange_named(exchange) else {
        return Err(CertWord::UnknownName);
    };
    let Some(rank) = number(rank, 65535) else {
        return Err(CertWord::BadNumber);
    };
    if cert.rank(code, exchange).is_some() {
        return Err(CertWord::Duplicate);
    }
    cert.set(code, exchange, rank as u16);
    Ok(())
}

/// The words after RANK: a code, an exchange and a rank.
#[tactic(auto, using(crate::proofs::Counts::rank_count))]
fn rank_line<A: Allocator>(
    plan: &Plan<A>,
    cert: &mut Cert<A>,
    words: Words<'_>,
) -> Result<(), CertWord>
    requires codes { cert.old.codes ≡ length plan.now.codes }
    requires exchanges { cert.old.exchanges ≡ length plan.now.exchanges }
    ensures ok { IfOk result (λ _. rank_line plan.now cert.old words.entry ≡ Ok cert.new) }
    ensures err { IfErr result (λ e. rank_line plan.now cert.old words.entry ≡ Err e) }
    ensures codes { cert.new.codes ≡ cert.old.codes }
    ensures exchanges { cert.new.exchanges ≡ cert.old.exchanges }
{
    match words.three() {
        Some((code, exchange, rank)) => add_rank(plan, cert, code, exchange, rank),
        None => Err(CertWord::WrongCount),
    }
}

/// What the line declares after the lines before it.
#[tactic(auto, unfolding(crate::specs::CertText::declare))]
pub(crate) fn declare<A: Allocator>(
    plan: &Plan<A>,
    cert: &mut Cert<A>,
    words: Words<'_>,
) -> Result<(), CertWord>
    requires codes { cert.old.codes ≡ length plan.now.codes }
    requires exchanges { cert.old.exchanges ≡ length plan.now.exchanges }
    ensures ok { IfOk result (λ _. declare plan.now 1 cert.old words.entry ≡ Ok cert.new) }
    ensures err { IfErr result (λ e. declare plan.now 1 cert.old words.entry ≡ Err e) }
    ensures codes { cert.new.codes ≡ cert.old.codes }
    ensures exchanges { cert.new.exchanges ≡ cert.old.exchanges }
{
    let mut words = words;
    let Some(first) = words.next() else {
        return Err(CertWord::UnknownWord);
    };
    if first == b"RANK".as_slice() {
        return rank_line(plan, cert, words);
    }
    if first == b"END".as_slice() {
        return Err(CertWord::WrongCount);
    }
    Err(CertWord::UnknownWord)
}
