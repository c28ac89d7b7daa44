// The law of the faults that a check looks for.
ghost use Rattle.tx_check.specs.Checks.{FaultlessIsCertified};

/// There is no fault exactly where the plan is certified. Does nothing: its contract is a law.
pub fn faultless_is_certified()
    ensures { FaultlessIsCertified }
{}
