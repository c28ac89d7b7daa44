// Ranges of national numbers.
ghost use Rattle.std.specs.Prelude.{◌≡◌};

use crate::ids::{CodeId, National, at_most};

/// The national numbers of a code from low to high, both in it. They have as many figures as its
/// ends, and are in order figure by figure.
#[derive(Clone, Copy)]
pub struct LineRange {
    pub code: CodeId,
    pub low: National,
    pub high: National,
}

impl LineRange {
    ghost use Rattle.tx_plan.specs.Numbers.{in_range, shares};

    /// Whether the number has the range's width and lies in it.
    pub fn has(&self, number: &[u8]) -> bool
        ensures { result ≡ in_range number.now self.now }
    {
        number.len() == self.low.bytes().len()
            && at_most(self.low.bytes(), number)
            && at_most(number, self.high.bytes())
    }

    /// Whether it is of the code and shares a number with those from low to high, of one width.
    pub fn shares(&self, code: CodeId, low: &[u8], high: &[u8]) -> bool
        ensures { result ≡ shares code low.now high.now self.now }
    {
        self.code == code
            && self.low.bytes().len() == low.len()
            && at_most(self.low.bytes(), high)
            && at_most(low, self.high.bytes())
    }
}
