// Certificates.
ghost use Rattle.std.specs.Prelude.{◌≡◌, ◌<◌, ◌≤◌, IfOk, IfSome};
ghost use Rattle.tx_cert.specs.Certificate.{no_ranks, no_ranks_for, rank_at, with_rank, IsCertificate};

use std::alloc::{Allocator, Global};
use std::marker::Model;
use tx_plan::{CodeId, ExchangeId, Plan};
use tx_text::NoMemory;

/// A certificate: for each code and exchange of a plan a rank from 0 to 65,535, or none.
pub struct Cert<A: Allocator = Global> {
    codes: usize,
    exchanges: usize,
    ranks: Vec<Option<u16>, A>,
}

impl<A: Allocator> Drop for Cert<A> {
    fn drop(self) {
        let Self {
            codes: _,
            exchanges: _,
            ranks,
        } = self;
        drop(ranks);
    }
}

impl<A: Allocator> Model for Cert<A> {
    ghost use Rattle.tx_cert.specs.Certificate.{Certificate};
    ghost use Rattle.tx_cert.specs.inner.Table.{certificate_of, certificate_code, IsTable};

    ghost Value = { Certificate };

    ghost coded = { certificate_code };

    ghost view = { λ t. certificate_of
        (record { codes = t.codes; exchanges = t.exchanges; ranks = t.ranks.items }) };

    ghost invariant = { λ t. IsTable
        (record { codes = t.codes; exchanges = t.exchanges; ranks = t.ranks.items }) };
}

impl<A: Allocator> Cert<A> {
    /// A certificate without ranks for the plan, with room for all. No other call takes memory.
    pub fn new(alloc: A, plan: &Plan<A>) -> Result<Cert<A>, NoMemory>
        ensures { IfOk result (λ t. t ≡ no_ranks_for plan.now) }
    {
        Cert::of_sizes(alloc, plan.codes(), plan.exchanges())
    }

    /// A certificate without ranks for so many codes and exchanges.
    fn of_sizes(alloc: A, codes: usize, exchanges: usize) -> Result<Cert<A>, NoMemory>
        requires codes { codes ≤ 1100 }
        requires exchanges { exchanges ≤ 256 }
        ensures { IfOk result (λ t. t ≡ no_ranks codes exchanges) }
    {
        let ranks = vec![in alloc; None; codes * exchanges]?;
        Ok(Cert {
            codes,
            exchanges,
            ranks,
        })
    }

    /// Only its own codes and exchanges are ranked, and no rank is above 65,535. Does nothing: its
    /// callers' proofs name it.
    pub fn rules(&self)
        ensures { IsCertificate self.now }
    {
        let _ = &self.ranks;
    }

    /// Gives the exchange a rank for the code, in place of one that it had. Both are of the
    /// certificate's plan.
    pub fn set(&mut self, code: CodeId, exchange: ExchangeId, rank: u16)
        requires code { code < self.old.codes }
        requires exchange { exchange < self.old.exchanges }
        ensures { self.new ≡ with_rank self.old code exchange rank }
    {
        self.ranks[code.index() * self.exchanges + exchange.index()] = Some(rank);
    }

    /// The rank of the exchange for the code, if it has one; none for a foreign code or exchange.
    pub fn rank(&self, code: CodeId, exchange: ExchangeId) -> Option<u16>
        ensures rank { result ≡ rank_at self.now code exchange }
        ensures code { IfSome result (λ _. code < self.now.codes) }
        ensures exchange { IfSome result (λ _. exchange < self.now.exchanges) }
    {
        if code.index() < self.codes && exchange.index() < self.exchanges {
            self.ranks[code.index() * self.exchanges + exchange.index()]
        } else {
            None
        }
    }
}
