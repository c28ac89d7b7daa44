// The ranks of a code, written into a certificate.
ghost use Rattle.std.specs.Prelude.{◌≡◌, ◌≢◌, ◌<◌, ℕ, length, None};
ghost use Rattle.tx_cert.specs.Certificate.{rank_at as ranked_at};
ghost use Rattle.tx_rank.specs.inner.Marks.{rank_in};

use crate::list_scan::rank_at;
use crate::mark::Mark;
use crate::routes::CodeNet;
use std::alloc::Allocator;
use tx_cert::Cert;
use tx_plan::CodeId;

/// Writes the rank of the exchange at an index, if it has one.
fn put_rank<A: Allocator, N: CodeNet>(
    net: &N,
    marks: &[Mark],
    index: usize,
    code: CodeId,
    cert: &mut Cert<A>,
)
    requires index { index < (N.net net.now).exchanges }
    requires long { length marks.now ≡ (N.net net.now).exchanges }
    requires code { code < cert.old.codes }
    requires exchanges { cert.old.exchanges ≡ (N.net net.now).exchanges }
    requires blank { ranked_at cert.old code index ≡ None }
    ensures here { ranked_at cert.new code index ≡ rank_in marks.now index }
    ensures others { (d x : ℕ) → (d ≡ code → x ≡ index → ⊥)
        → ranked_at cert.new d x ≡ ranked_at cert.old d x }
    ensures codes { cert.new.codes ≡ cert.old.codes }
    ensures exchanges { cert.new.exchanges ≡ cert.old.exchanges }
{
    let exchange = net.exchange(index);
    match rank_at(marks, exchange) {
        Some(rank) => cert.set(code, exchange, rank),
        None => {}
    }
}

/// Writes the ranks of a code that has none yet.
pub fn put_ranks<A: Allocator, N: CodeNet>(
    net: &N,
    marks: &[Mark],
    code: CodeId,
    cert: &mut Cert<A>,
)
    requires long { length marks.now ≡ (N.net net.now).exchanges }
    requires code { code < cert.old.codes }
    requires exchanges { cert.old.exchanges ≡ (N.net net.now).exchanges }
    requires blank { (x : ℕ) → ranked_at cert.old code x ≡ None }
    ensures here { (x : ℕ) → ranked_at cert.new code x ≡ rank_in marks.now x }
    ensures others { (d x : ℕ) → d ≢ code → ranked_at cert.new d x ≡ ranked_at cert.old d x }
    ensures codes { cert.new.codes ≡ cert.old.codes }
    ensures exchanges { cert.new.exchanges ≡ cert.old.exchanges }
{
    for index in 0..net.exchanges() {
        put_rank(net, marks, index, code, cert);
    }
}
