// How a call goes by the first way, also where groups are blocked, what a height says of ranks and
// of ways, and which exchanges are met.
ghost use Rattle.std.specs.Prelude.{◌≡◌, ◌↔◌, ℕ, ◌<◌, true, false, List, length, Some, IsSome};
ghost use Rattle.std.specs.List.{AllByRecursion};
ghost use Rattle.tx_plan.specs.Plan.{Plan, home_of};
ghost use Rattle.tx_plan.specs.Rules.{IsPlan};
ghost use Rattle.tx_plan.specs.Lines.{is_line};
ghost use Rattle.tx_plan.specs.Codes.{code_of};
ghost use Rattle.tx_plan.specs.Routes.{is_barred};
ghost use Rattle.tx_plan.specs.declared.ids.Line.{Line};
ghost use Rattle.tx_plan.specs.declared.ids.Pair.{Pair};
ghost use Rattle.tx_plan.specs.Among.{Among};
ghost use Rattle.tx_machine.specs.declared.event.Event.{Event};
ghost use Rattle.tx_machine.specs.State.{State};
ghost use Rattle.tx_machine.specs.Runs.{replies};
ghost use Rattle.tx_rank.specs.Walks.{net_of, AllDiffer};
ghost use Rattle.tx_rank.specs.Heights.{IsHeight, IsReached};
ghost use Rattle.tx_trace.specs.Heights.{height};
ghost use Rattle.tx_trace.specs.Ranked.{CanBeRankedFrom, net_from};
ghost use Rattle.tx_trace.specs.Left.{plan_left, AreBlocked, unblocked, is_blocking};
ghost use Rattle.tx_trace.specs.Ways.{first_way, all_met};
ghost use Rattle.tx_trace.specs.declared.through.Through.{Through};
ghost use Rattle.tx_trace.specs.Through.{calls_through, CanPass};
ghost use Rattle.tx_trace.specs.OnlyCall.{GoesBy};

/// From the opening state a line that is at home at an exchange keys a code, for which calls may
/// start there, and perhaps a number. Its call goes by the first way. One more Route, unless the
/// way has come back, is answered by the line that is called at the home, and elsewhere with NC.
pub fn only_call_goes_first_way()
    ensures { (p : Plan) (c x : ℕ) (line : Line) (keyed : List ℕ) → IsPlan p
        → is_line p line ≡ true → home_of p line.code ≡ x → code_of p keyed ≡ Some c
        → is_barred p x c ≡ false → GoesBy p c x line keyed (first_way p c x) }
{}

/// Where just some groups are blocked, each event has the reply that it would have without them: in
/// the plan that is left, where none is blocked. So the only call goes by the first way there.
pub fn blocked_replies_as_left()
    ensures { (p : Plan) (down : List ℕ) (s : State) (events : List Event) → IsPlan p
        → AreBlocked s down → AllByRecursion (λ e. is_blocking e ≡ false) events
        → replies p s events ≡ replies (plan_left p down) (unblocked s) events }
{}

/// An exchange has a height exactly where some ranks certify the code for calls that start there,
/// and it is the number of steps of the longest way to the home.
pub fn heights_are_ranks()
    ensures ranked { (p : Plan) (c x : ℕ) → IsPlan p → c < length p.codes → x < length p.exchanges
        → IsSome (height p c x) ↔ CanBeRankedFrom p c x }
    ensures longest { (p : Plan) (c x h : ℕ) → IsPlan p → c < length p.codes
        → height p c x ≡ Some h → IsHeight (net_of p c) x h }
{}

/// The exchanges met are those where a way of a call that starts there ends, each once.
pub fn met_are_reached()
    ensures reached { (p : Plan) (c x y : ℕ) → IsPlan p → c < length p.codes
        → x < length p.exchanges → Among y (all_met p c x) ↔ IsReached (net_from p c x) y }
    ensures once { (p : Plan) (c x : ℕ) → AllDiffer (all_met p c x) }
{}

/// The calls listed are those that can pass: of each such code, and each exchange where it starts.
pub fn through_are_walks()
    ensures { (p : Plan) (t : Through) (k : Pair) → IsPlan p
        → Among k (calls_through p t) ↔ ((k.code < length p.codes)
        × (k.exchange < length p.exchanges) × CanPass p t k.code k.exchange) }
{}
