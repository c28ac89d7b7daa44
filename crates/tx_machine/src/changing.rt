// What is promised while a plan is changed.
ghost use Rattle.std.specs.Prelude.{ℕ};
ghost use Rattle.tx_plan.specs.Plan.{Plan};
ghost use Rattle.tx_plan.specs.Certified.{Ranks, IsCertified};
ghost use Rattle.tx_plan.specs.Mixtures.{SameNetwork, EachMixture, AreCommon};
ghost use Rattle.tx_machine.specs.Sound.{IsSound};
ghost use Rattle.tx_machine.specs.ChangingRuns.{IsSoundChange, HasFewRoutesMeanwhile, SufficesMeanwhile};

/// Ranks that certify an old and a new plan of one network certify every mixture of them, and so
/// each mixture is sound.
pub fn common_ranks_certify()
    ensures certified { (old new : Plan) (ranks : Ranks) (limit spare : ℕ)
        → SameNetwork old new → AreCommon old new ranks limit spare
        → EachMixture old new (λ m. IsCertified m ranks limit spare) }
    ensures sound { (old new : Plan) (ranks : Ranks) (limit spare : ℕ)
        → SameNetwork old new → AreCommon old new ranks limit spare
        → EachMixture old new (λ m. IsSound m limit spare) }
{}

/// Where ranks certify an old and a new plan of one network, the change is sound with calls up:
/// whichever mixture is in force at each event, every state is safe and every NC is excused by the
/// list then in force. At most twice `limit` and three Routes of one call are accepted, and spare
/// groups suffice as without a change.
pub fn live_change_is_sound()
    ensures sound { (old new : Plan) (ranks : Ranks) (limit spare : ℕ)
        → SameNetwork old new → AreCommon old new ranks limit spare
        → IsSoundChange old new limit spare }
    ensures few_routes { (old new : Plan) (ranks : Ranks) (limit spare : ℕ)
        → SameNetwork old new → AreCommon old new ranks limit spare
        → HasFewRoutesMeanwhile old new limit }
    ensures suffice { (old new : Plan) (ranks : Ranks) (limit spare : ℕ)
        → SameNetwork old new → AreCommon old new ranks limit spare
        → SufficesMeanwhile old new spare }
{}
