// The laws of all faults of a text.
ghost use Rattle.tx_lint.specs.Laws.{FaultsAgreeWithReader, NoFaultIsLost};

/// The first of all faults of a text is the fault that `read_plan` answers, and there is none
/// exactly where that answers a plan, which is then the same. Does nothing: its contract is a law.
pub fn faults_agree_with_reader()
    ensures { FaultsAgreeWithReader }
{}

/// Of any faults those are told that come of none before them, in order, and each other one is
/// counted once. Does nothing: its contract is a law.
pub fn no_fault_is_lost()
    ensures { NoFaultIsLost }
{}
