// What is promised while groups are down at once.
ghost use Rattle.std.specs.Prelude.{◌≡◌, ◌↔◌, ℕ, ◌<◌, List, true, length};
ghost use Rattle.tx_plan.specs.Plan.{Plan};
ghost use Rattle.tx_plan.specs.Rules.{IsPlan};
ghost use Rattle.tx_plan.specs.Routes.{is_origin_for};
ghost use Rattle.tx_plan.specs.Certified.{Ranks, IsCertified};
ghost use Rattle.tx_rank.specs.Walks.{Net, Goes, end_of, IsShort};
ghost use Rattle.tx_machine.specs.Runs.{InEveryState, OfEveryEvent};
ghost use Rattle.tx_risk.specs.Risks.{Risk, without, net_without, IsDeadEnd, IsCut, IsUncut, LeavesSome, IsServed};
ghost use Rattle.tx_risk.specs.Served.{ThroughIf, StartsUncut, OutsideFree, IsClear, AllFailed, NoneOnFailed, KeyedSinceAreClear, KeyedSinceGetThrough};

/// Where a way leads to a dead end, one on which nothing repeats does.
pub fn dead_ends_cut()
    ensures { (n : Net) (x : ℕ) (steps : List (ℕ × ℕ)) → IsDeadEnd n x steps
        → (short : List (ℕ × ℕ)) × IsCut n x short }
{}

/// An origin is cut exactly by the short walks, without a spare group, of the network without the
/// risk.
pub fn cut_is_short()
    ensures { (risk : Risk) (n : Net) (x : ℕ) (steps : List (ℕ × ℕ)) → n.is_origin x ≡ true
        → IsCut (without risk n) x steps ↔ IsShort (without risk n) 0 x steps }
{}

/// No way by the groups that are left leads from an exchange that is not cut to one that is.
pub fn uncut_is_closed()
    ensures { (p : Plan) (risk : Risk) (code x : ℕ) (steps : List (ℕ × ℕ))
        → IsUncut p risk code x → Goes (net_without p risk code) x steps
        → IsUncut p risk code (end_of x steps) }
{}

/// Where each ranked exchange of a certified plan lists a group that is left, no origin is cut.
pub fn ranked_is_uncut()
    ensures { (p : Plan) (ranks : Ranks) (limit spare : ℕ)
        → IsPlan p → IsCertified p ranks limit spare
        → (risk : Risk) (code x : ℕ) → code < length p.codes → LeavesSome p ranks risk code
        → is_origin_for p x code ≡ true → IsUncut p risk code x }
{}

/// In a certified plan an origin is not cut exactly where each way from it, by the groups that are
/// left, can go on to the home.
pub fn uncut_is_served()
    ensures served { (p : Plan) (ranks : Ranks) (limit spare : ℕ)
        → IsPlan p → IsCertified p ranks limit spare
        → (risk : Risk) (code x : ℕ) → code < length p.codes → is_origin_for p x code ≡ true
        → IsUncut p risk code x → IsServed p risk code x }
    ensures uncut { (p : Plan) (risk : Risk) (code x : ℕ)
        → IsServed p risk code x → IsUncut p risk code x }
{}

/// In every run of any plan no open call is on a failed group.
pub fn none_on_failed()
    ensures { (p : Plan) → IsPlan p → InEveryState p NoneOnFailed }
{}

/// In every run of any plan, a call that uses no circuit of a risk, and whose code is not cut off
/// by it where the call started, is answered NC only after a second head-on collision, while each
/// group outside the risk, of the list where the call stands, is up and has a circuit free there.
pub fn clear_calls_get_through()
    ensures { (p : Plan) → IsPlan p → (risk : Risk) → OfEveryEvent p (λ s.
        ThroughIf (λ c. IsClear risk c × StartsUncut p risk c × OutsideFree p risk s c) s) }
{}

/// While all groups of a risk are failed, this holds of every call whose code is not cut off where
/// it started, whenever it was keyed.
pub fn failed_cuts_no_other()
    ensures { (p : Plan) → IsPlan p → (risk : Risk) → OfEveryEvent p (λ s e r. AllFailed risk s
        → ThroughIf (λ c. StartsUncut p risk c × OutsideFree p risk s c) s e r) }
{}

/// While all groups of a risk are down, failed or blocked, it holds of every call that was keyed
/// since.
pub fn keyed_since_get_through()
    ensures clear { (p : Plan) → IsPlan p → (risk : Risk) → KeyedSinceAreClear p risk }
    ensures through { (p : Plan) → IsPlan p → (risk : Risk) → KeyedSinceGetThrough p risk }
{}
