// The limits and the spare numbers with which something is certified.
ghost use Rattle.std.specs.Prelude.{◌≡◌, max, min};
ghost use Rattle.tx_rank.specs.inner.Together.{together};

/// The least transit limit and the greatest spare number, which is at most 15.
#[derive(Clone, Copy)]
pub struct Bounds {
    pub limit: u16,
    pub spare: u8,
}

impl Bounds {
    /// Those of what needs no circuit.
    pub(crate) fn widest() -> Bounds
        ensures limit { result.limit ≡ 0 }
        ensures spare { result.spare ≡ 15 }
    {
        Bounds {
            limit: 0,
            spare: 15,
        }
    }

    /// Those of two things together.
    pub(crate) fn both(self, other: Bounds) -> Bounds
        ensures limit { result.limit ≡ max self.limit other.limit }
        ensures spare { result.spare ≡ min self.spare other.spare }
    {
        Bounds {
            limit: self.limit.max(other.limit),
            spare: self.spare.min(other.spare),
        }
    }
}

/// Those of two things together, if each has some.
pub fn both(one: Option<Bounds>, other: Option<Bounds>) -> Option<Bounds>
    ensures { result ≡ together one other }
{
    Some(one?.both(other?))
}
