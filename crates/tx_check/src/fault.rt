// Why a check says No.
use tx_plan::{CodeId, ExchangeId, GroupId};

/// What a check finds. Of several faults the first in this order is reported; of several of one
/// kind is the first by order of declaration of the code and then of the exchange, and then by
/// place in the list; of ambiguous pairs it is the least by their figures.
#[derive(Clone, Copy, PartialEq, Eq)]
pub enum CheckFault {
    /// K1: the first code begins the second.
    Ambiguous(CodeId, CodeId),
    /// K2: the home's rank is not 0.
    HomeNotZero(CodeId),
    /// K3: an exchange where calls for the code may start has no rank.
    OriginUnranked(CodeId, ExchangeId),
    /// K4: the rank of the exchange is above the limit and one.
    TooHigh(CodeId, ExchangeId),
    /// K5: a ranked exchange other than the home has a list of no more groups than are to spare.
    Short(CodeId, ExchangeId),
    /// K6: a group in the list of a ranked exchange other than the home leads to an exchange
    /// without rank.
    TargetUnranked(CodeId, ExchangeId, GroupId),
    /// K7: a group in the list of such an exchange leads to a rank that is not smaller.
    NotLower(CodeId, ExchangeId, GroupId),
}
