// What is promised of every run.
ghost use Rattle.std.specs.Prelude.{ℕ};
ghost use Rattle.tx_plan.specs.Plan.{Plan};
ghost use Rattle.tx_plan.specs.Rules.{IsPlan};
ghost use Rattle.tx_plan.specs.Certified.{Ranks, IsCertified};
ghost use Rattle.tx_machine.specs.Runs.{InEveryState, OfEveryEvent};
ghost use Rattle.tx_machine.specs.Safe.{JoinsAndCarriesOnce, TakesPartOnce, RanksFall};
ghost use Rattle.tx_machine.specs.Excused.{IsExcused, FewDown, OthersFree, IsNcByCollision};
ghost use Rattle.tx_machine.specs.Sound.{IsSound, HasFewRoutes};
ghost use Rattle.tx_machine.specs.Drained.{AppendsTickets};

/// In every run of any plan each hop's circuit is one of the plan and joins the exchange before it
/// to the one after it, and no circuit is carried twice.
pub fn hops_join_and_carry_once()
    ensures { (p : Plan) → IsPlan p → InEveryState p (JoinsAndCarriesOnce p) }
{}

/// In every run of any plan no line takes part twice, and a connected call stands at the home of
/// its line's code, with that line's full number keyed.
pub fn lines_take_part_once()
    ensures { (p : Plan) → IsPlan p → InEveryState p (TakesPartOnce p) }
{}

/// In every run of a certified plan ranks fall along the hops of each call, no exchange is passed
/// twice, there are at most `limit` transits, and no other line has the full number of the line
/// that a call is connected to.
pub fn ranks_fall()
    ensures { (p : Plan) (ranks : Ranks) (limit spare : ℕ)
        → IsPlan p → IsCertified p ranks limit spare → InEveryState p (RanksFall p ranks limit) }
{}

/// In every run of a certified plan every NC is excused.
pub fn every_nc_is_excused()
    ensures { (p : Plan) (ranks : Ranks) (limit spare : ℕ)
        → IsPlan p → IsCertified p ranks limit spare → OfEveryEvent p (IsExcused p spare) }
{}

/// In every run of a certified plan, while at most `spare` groups are down and each other group has
/// a circuit free where the routed call stands, NC is answered only after a second head-on
/// collision.
pub fn spare_groups_suffice()
    ensures { (p : Plan) (ranks : Ranks) (limit spare : ℕ)
        → IsPlan p → IsCertified p ranks limit spare
        → OfEveryEvent p (λ s e r. FewDown p s spare → OthersFree p s e → IsNcByCollision s r) }
{}

/// In every run of a certified plan at most twice `limit` and three Routes of one call are
/// accepted.
pub fn routes_are_bounded()
    ensures { (p : Plan) (ranks : Ranks) (limit spare : ℕ)
        → IsPlan p → IsCertified p ranks limit spare → HasFewRoutes p limit }
{}

/// A certified plan is sound: from every opening state and for every list of events every state is
/// safe and every NC is excused. And at most twice `limit` and three Routes of one call are
/// accepted.
pub fn certified_is_sound()
    ensures sound { (p : Plan) (ranks : Ranks) (limit spare : ℕ)
        → IsPlan p → IsCertified p ranks limit spare → IsSound p limit spare }
    ensures few_routes { (p : Plan) (ranks : Ranks) (limit spare : ℕ)
        → IsPlan p → IsCertified p ranks limit spare → HasFewRoutes p limit }
{}

/// No reply depends on the tickets not yet taken, and a step only appends tickets.
pub fn tickets_are_appended()
    ensures { AppendsTickets }
{}
