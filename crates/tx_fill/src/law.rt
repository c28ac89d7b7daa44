// What stands when calls were set up one after another.
ghost use Rattle.std.specs.Prelude.{◌≡◌, ℕ, true, List};
ghost use Rattle.std.specs.List.{AllByRecursion};
ghost use Rattle.tx_plan.specs.Plan.{Plan};
ghost use Rattle.tx_plan.specs.Rules.{IsPlan};
ghost use Rattle.tx_machine.specs.Call.{is_connected};
ghost use Rattle.tx_fill.specs.Fills.{fill_state};

/// Each call that stands is connected: none is left on its way. So the calls that are counted are
/// those that are connected at once.
pub fn open_calls_are_connected()
    ensures { (p : Plan) (down : List ℕ) (x c : ℕ) → IsPlan p
        → AllByRecursion (λ k. is_connected k.phase ≡ true) (fill_state p down x c).calls }
{}
