// For what a plan is judged.
ghost use Rattle.std.specs.Prelude.{◌≤◌};

/// For what a plan is judged: how many transits a call may pass (at most 62, ITU-T F.68), and how
/// many groups of a list are to spare (at most 15).
#[derive(Clone, Copy, PartialEq, Eq)]
pub struct Limits {
    pub limit: u8,
    pub spare: u8,
    pub ghost limited: { limit ≤ 62 },
    pub ghost spared: { spare ≤ 15 },
}
