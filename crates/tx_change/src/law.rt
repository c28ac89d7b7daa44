// The laws of a change.
ghost use Rattle.std.specs.Prelude.{ℕ};
ghost use Rattle.tx_plan.specs.Plan.{Plan};
ghost use Rattle.tx_plan.specs.Rules.{IsPlan};
ghost use Rattle.tx_rank.specs.declared.finding.Finding.{Finding};
ghost use Rattle.tx_rank.specs.Grades.{CanBeCertified};
ghost use Rattle.tx_plan.specs.Mixtures.{SameNetwork};
ghost use Rattle.tx_change.specs.ChangeNets.{IsTrueOfChange};
ghost use Rattle.tx_change.specs.ClosedCodes.{ClosedCodesStay, NewCodesStay};
ghost use Rattle.tx_change.specs.Shown.{shown_by, IsShown};

use std::alloc::Allocator;

/// What is found of a change is found of a mixture: the one that the finding shows is one, the
/// finding is true of it, and no ranks certify it.
pub fn findings_show_mixtures<A: Allocator>()
    ensures shown { (old new : Plan) (limit spare : ℕ) (f : Finding A)
        → IsPlan old → IsPlan new → SameNetwork old new
        → IsTrueOfChange old new limit spare f → IsShown old new limit spare f }
    ensures uncertified { (old new : Plan) (limit spare : ℕ) (f : Finding A)
        → IsPlan old → IsPlan new → SameNetwork old new
        → IsTrueOfChange old new limit spare f
        → CanBeCertified (shown_by old new spare f) limit spare → ⊥ }
{}

/// No call for a code that both plans have closed leaves the exchange where it started, whichever
/// mixture is in force. Over a joined network the codes that the new plan alone has are such.
pub fn closed_codes_stay()
    ensures closed { ClosedCodesStay }
    ensures new { NewCodesStay }
{}
