// Whether a code can be certified at all.
ghost use Rattle.std.specs.Prelude.{◌≡◌, ◌↔◌, ℕ, Option, true, IfOk};
ghost use Rattle.tx_rank.specs.Nets.{Certifies};

use crate::explore::{pass, unseen};
use crate::long_walk::long_walk;
use crate::routes::CodeNet;
use crate::short_walks::has_short;
use std::alloc::Allocator;
use tx_text::NoMemory;

/// Whether some ranks certify a code.
pub fn can_be_certified<A: Allocator + Copy, N: CodeNet>(
    alloc: A,
    net: &N,
    limit: u8,
    spare: u8,
) -> Result<bool, NoMemory>
    ensures { IfOk result (λ can. can ≡ true
        ↔ ((ranks : ℕ → Option ℕ) × Certifies (N.net net.now) ranks limit spare)) }
{
    let mut search = unseen(alloc, net)?;
    let closed = pass(net, &mut search)?;
    if closed {
        return Ok(false);
    }
    if has_short(net, &search.marks, spare) {
        return Ok(false);
    }
    let long = long_walk(alloc, net, &search.marks, limit)?;
    Ok(long.is_none())
}
