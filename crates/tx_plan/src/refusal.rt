// Why a declaration is refused.
ghost use Rattle.std.specs.Prelude.{◌≡◌};
ghost use Rattle.tx_plan.specs.declared.refusal.PlanRefusal.TheVariants.{NoMemory as OutOfMemory};

use std::alloc::AllocFailed;
use tx_text::NoMemory;

/// Why a declaration of a plan is refused. Of several reasons the first in this order is given. The
/// codes are those that a plan's text is refused with.
#[derive(Clone, Copy, Debug, PartialEq, Eq)]
pub enum PlanRefusal {
    /// P4: a route without groups. A reader of texts also refuses a wrong number of words with it.
    WrongCount,
    /// P5: a word in the place of an exchange or a group is no name.
    BadName,
    /// P6: a word in the place of a code is not two or three figures.
    BadCode,
    /// P7: an end of a range is not 1 to 9 figures, or a count is not 1 to 240.
    BadNumber,
    /// P8: declared before; of a route or a bar, the exchange has one for the code.
    Duplicate,
    /// P9: an exchange, a code or a group that was not declared.
    Unknown,
    /// P10: the ends of a range differ in width, or the low one is above the high one.
    RangeOrder,
    /// P11: the range shares a number with one of the same code and width.
    Overlap,
    /// P12: both ends of a group are one exchange.
    SameEnds,
    /// P13: the exchange may not seize a group of its list.
    NotOutgoing,
    /// P14: a group is twice in a list.
    RepeatedGroup,
    /// P15: a route at the code's home.
    RouteAtHome,
    /// P16: the 257th exchange, the 4,097th range or group, or a list of more than 16 groups.
    TooMany,
    /// P22: a bar at the code's home.
    BarAtHome,
    /// P21: no memory was left.
    NoMemory,
}

impl From<NoMemory> for PlanRefusal {
    ghost from_gives = { λ _ refusal. refusal ≡ OutOfMemory };

    fn from(_: NoMemory) -> PlanRefusal {
        PlanRefusal::NoMemory
    }
}

impl<T: Drop> From<AllocFailed<T>> for PlanRefusal {
    ghost from_gives = { λ _ refusal. refusal ≡ OutOfMemory };

    fn from(_: AllocFailed<T>) -> PlanRefusal {
        PlanRefusal::NoMemory
    }
}
