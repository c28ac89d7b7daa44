// Marks of exchanges.
ghost use Rattle.std.specs.Prelude.{◌≡◌};
ghost use Rattle.tx_rank.specs.Reached.{is_marked};

use tx_plan::ExchangeId;

/// Whether an exchange is marked.
pub fn is_marked(marks: &[bool], exchange: ExchangeId) -> bool
    ensures { result ≡ is_marked marks.now exchange }
{
    match marks.get(exchange.index()) {
        Some(mark) => *mark,
        None => false,
    }
}
