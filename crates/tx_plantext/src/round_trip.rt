// The law of plan texts that are written.
ghost use Rattle.tx_plantext.specs.PlanWritten.{ReadsBack};

/// The text that is written for a plan reads back as that plan. Does nothing: its contract is a
/// law.
pub fn written_plans_read_back()
    ensures { ReadsBack }
{}
