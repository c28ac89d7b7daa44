// Each cut is real.
ghost use Rattle.std.specs.Prelude.{◌≡◌, ℕ, ◌<◌, List, true, length};
ghost use Rattle.tx_plan.specs.Plan.{Plan};
ghost use Rattle.tx_plan.specs.Rules.{IsPlan};
ghost use Rattle.tx_plan.specs.Routes.{is_origin_for};
ghost use Rattle.tx_machine.specs.declared.event.Event.{Event};
ghost use Rattle.tx_risk.specs.Risks.{Risk, net_without, IsCut};
ghost use Rattle.tx_risk_report.specs.Shown.{IsShown};

/// Where a risk cuts off a code from an origin there are events that anybody can replay: one call
/// goes along the cut, and is answered NC while only groups of the risk are down.
pub fn cut_is_shown()
    ensures { (p : Plan) → IsPlan p → (risk : Risk) (code x : ℕ) (steps : List (ℕ × ℕ))
        → code < length p.codes → is_origin_for p x code ≡ true
        → IsCut (net_without p risk code) x steps
        → (events : List Event) × IsShown p risk code x steps events }
{}
