// What is promised of an order.
ghost use Rattle.std.specs.Prelude.{◌≡◌, ◌↔◌, ◌<◌, ◌≤◌, ◌+◌, ℕ, List, map, length};
ghost use Rattle.tx_plan.specs.Plan.{Plan};
ghost use Rattle.tx_plan.specs.Rules.{IsPlan};
ghost use Rattle.tx_plan.specs.Certified.{Ranks, IsCertified};
ghost use Rattle.tx_plan.specs.Mixtures.{SameNetwork, IsMixture, AreCommon};
ghost use Rattle.tx_machine.specs.State.{opening};
ghost use Rattle.tx_machine.specs.ChangingRuns.{changing_run};
ghost use Rattle.tx_order.specs.Levels.{levels_of};
ghost use Rattle.tx_order.specs.Stages.{AreBothCertified, plan_at, ranks_at};
ghost use Rattle.tx_order.specs.Orders.{IsListSwitched, IsBarSwitched, IsOrder, HasOrder, CanBothBeCertified};
ghost use Rattle.tx_order.specs.StagedRuns.{AreInStages, AreSoundStages, HaveFewRoutes, SufficeInStages, StagedTurn, AreStagedTurns};
ghost use Rattle.tx_order.specs.Transitions.{Transition};
ghost use Rattle.tx_order.specs.Joined.{IsSafeBetween, AreStages};
ghost use Rattle.tx_join.specs.Joined.{joined_old, joined_new};
ghost use Rattle.tx_join.specs.Laws.{CanBeJoined};
ghost use Rattle.tx_order.specs.Ordered.{Order};
ghost use Rattle.tx_order.specs.Switchings.{IsOrdered};
ghost use Rattle.tx_order.specs.LeadsOver.{LeadsOver};

/// The plan in which the levels below some front are switched is certified by a mixture of the old
/// ranks and the new ones: the new rank where the list is switched, and else the old one.
pub fn each_plan_is_certified()
    ensures { (old new : Plan) (before after : Ranks) (limit spare front : ℕ)
        → AreBothCertified old new before after limit spare
        → IsCertified (plan_at old new before after limit front)
        (ranks_at before after limit front) limit spare }
{}

/// For each level the same ranks certify the plan before it and the plan after it, so that its
/// lists and bars may be switched in any order: those before it while ranks fall, and those after
/// it while they rise.
pub fn each_level_is_common()
    ensures falling { (old new : Plan) (before after : Ranks) (limit spare level : ℕ)
        → AreBothCertified old new before after limit spare → level < limit + 2
        → AreCommon (plan_at old new before after limit level)
        (plan_at old new before after limit (level + 1))
        (ranks_at before after limit level) limit spare }
    ensures rising { (old new : Plan) (before after : Ranks) (limit spare level : ℕ)
        → AreBothCertified old new before after limit spare → limit + 2 ≤ level
        → AreCommon (plan_at old new before after limit level)
        (plan_at old new before after limit (level + 1))
        (ranks_at before after limit (level + 1)) limit spare }
{}

/// The levels lead from the old plan to the new one, by mixtures of both, and each list and each
/// bar is switched at one level.
pub fn levels_lead_over()
    ensures first { (old new : Plan) (before after : Ranks) (limit : ℕ)
        → plan_at old new before after limit 0 ≡ old }
    ensures last { (old new : Plan) (before after : Ranks) (limit spare : ℕ)
        → AreBothCertified old new before after limit spare
        → plan_at old new before after limit (levels_of limit) ≡ new }
    ensures mixtures { (old new : Plan) (before after : Ranks) (limit front : ℕ)
        → IsPlan old → IsPlan new → SameNetwork old new
        → IsMixture old new (plan_at old new before after limit front) }
    ensures lists { (old new : Plan) (before after : Ranks) (limit spare x c : ℕ)
        → AreBothCertified old new before after limit spare → c < length old.codes
        → IsListSwitched old new (plan_at old new before after limit) (levels_of limit) x c }
    ensures bars { (old new : Plan) (before after : Ranks) (limit spare x c : ℕ)
        → AreBothCertified old new before after limit spare → c < length old.codes
        → IsBarSwitched old new (plan_at old new before after limit) (levels_of limit) x c }
{}

/// An order over a joined network leads from the old plan to the new one: with what is put there
/// before, by its stages, and by what goes after and is opened then.
pub fn orders_lead_over()
    ensures { (old new : Plan) (limit spare : ℕ) (o : Order) → CanBeJoined old new
        → IsOrdered (joined_old old new) (joined_new old new) limit spare o
        → LeadsOver old new o }
{}

/// An order is sound over all its stages, on and back, with calls up: if each call has a stage, and
/// while the call is being set up, only mixtures of the plans before and after that stage are in
/// force, then every state is safe and every NC is excused by the list then in force, at most twice
/// `limit` and three Routes of one call are accepted, and spare groups suffice. Each stage by
/// itself is the case where all calls have that stage.
pub fn orders_are_sound()
    ensures sound { (old new : Plan) (plans : ℕ → Plan) (stages limit spare : ℕ)
        → IsOrder old new plans stages limit spare → AreSoundStages plans stages limit spare }
    ensures few_routes { (old new : Plan) (plans : ℕ → Plan) (stages limit spare : ℕ)
        → IsOrder old new plans stages limit spare → HaveFewRoutes plans stages limit }
    ensures suffice { (old new : Plan) (plans : ℕ → Plan) (stages limit spare : ℕ)
        → IsOrder old new plans stages limit spare → SufficeInStages plans stages spare }
    // it is enough that no call is being set up when a stage begins
    ensures by_stage { (old new : Plan) (plans : ℕ → Plan) (stages limit spare : ℕ)
        (numbers count : ℕ) (turns : List StagedTurn) → IsOrder old new plans stages limit spare
        → AreStagedTurns plans stages 0 (opening numbers count) turns
        → AreInStages plans stages
        (changing_run (opening numbers count) (map (λ t. t.turn) turns)) }
{}

/// There is an order exactly where some ranks certify the old plan and some the new one.
pub fn ordered_exactly()
    ensures { (old new : Plan) (limit spare : ℕ) → IsPlan old → IsPlan new → SameNetwork old new
        → HasOrder old new limit spare ↔ CanBothBeCertified old new limit spare }
{}

/// The stages of a code are the fewest: any fronts of it from no level to all of them, of which
/// each two that follow one another are safe, have as many stages or more.
pub fn stages_are_fewest()
    ensures { (w : Transition) (c : ℕ) (ends : List ℕ) (fronts : ℕ → ℕ) (count : ℕ)
        → AreStages w c ends
        → fronts 0 ≡ 0 → fronts count ≡ levels_of w.limit
        → ((s : ℕ) → s ≤ count → fronts s ≤ levels_of w.limit)
        → ((s : ℕ) → s < count → IsSafeBetween w c (fronts s) (fronts (s + 1)))
        → length ends ≤ count }
{}
