// The laws of joined plans.
ghost use Rattle.tx_plan.specs.Plan.{Plan};
ghost use Rattle.tx_plan.specs.Rules.{IsPlan};
ghost use Rattle.tx_plan.specs.Mixtures.{SameNetwork};
ghost use Rattle.tx_join.specs.Laws.{OfJoined, AreOverBoth, HaveTheirLists, LeadOver, AreOwnJoined, CertifiesOld};

/// The joined plans are plans of one network, which has that of both plans, and each group with the
/// greater of both numbers of circuits. Each has the lists and bars of its own plan, and those of
/// the other one for what its own does not have, and no more. With the lists and bars that are put
/// there before, the old plan is the first of them, and without those that go after, the second is
/// the new plan.
pub fn joined_plans_are_of_both()
    ensures network { OfJoined AreOverBoth }
    ensures lists { OfJoined HaveTheirLists }
    ensures lead_over { OfJoined LeadOver }
{}

/// Plans of one network are their own joined plans, and do not differ beside lists and bars.
pub fn plans_of_one_network_stay()
    ensures { (old new : Plan) → IsPlan old → IsPlan new → SameNetwork old new
        → AreOwnJoined old new }
{}

/// What certifies the old plan over the joined network certifies the old plan as it is.
pub fn old_plan_is_certified()
    ensures { OfJoined CertifiesOld }
{}
