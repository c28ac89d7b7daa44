// At which level a list or a bar is switched.
ghost use Rattle.std.specs.Prelude.{◌≡◌};
ghost use Rattle.tx_order.specs.Levels.{levels_of, level_of, bar_level};

/// How many levels there are.
pub fn levels(limit: u8) -> u16
    ensures { result ≡ levels_of limit }
{
    2 * (u16::from(limit) + 2)
}

/// The level of a list, by the old rank and the new rank of its exchange.
pub fn level_of(limit: u8, before: Option<u16>, after: Option<u16>) -> u16
    ensures { result ≡ level_of limit before after }
{
    let rising = 2 * u16::from(limit) + 3;
    match (before, after) {
        (None, None) => 0,
        (None, Some(new)) => new,
        (Some(old), Some(new)) if new <= old => new,
        (Some(old), _) => rising.saturating_sub(old),
    }
}

/// The level of a bar of the new plan, or of an exchange that it does not bar.
pub fn bar_level(limit: u8, is_barred: bool) -> u16
    ensures { result ≡ bar_level limit is_barred }
{
    if is_barred {
        0
    } else {
        2 * u16::from(limit) + 3
    }
}
