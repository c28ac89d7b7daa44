// Why two plans have no joined network.
ghost use Rattle.std.specs.Prelude.{◌≡◌};
ghost use Rattle.tx_join.specs.declared.refusal.JoinRefusal.TheVariants.{NoMemory as OutOfMemory};

use tx_plan::{CodeId, GroupId};
use tx_text::NoMemory;

/// Why two plans have no joined network. Of several reasons the first in this order is given.
#[derive(Clone, Copy, PartialEq, Eq)]
pub enum JoinRefusal {
    /// A code of the new plan, which has another home in the old one.
    OtherHome(CodeId),
    /// A group of the new plan, which has other ends or another direction in the old one.
    OtherGroup(GroupId),
    /// Together the plans have more exchanges, codes or groups than a plan may have.
    TooMany,
    /// No memory was left.
    NoMemory,
}

impl From<NoMemory> for JoinRefusal {
    ghost from_gives = { λ _ refusal. refusal ≡ OutOfMemory };

    fn from(_: NoMemory) -> JoinRefusal {
        JoinRefusal::NoMemory
    }
}
