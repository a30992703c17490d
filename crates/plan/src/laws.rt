//! Laws about the faults of plans.

ghost use Rattle.std.specs.Prelude.{◌≡◌, None, Ok, Option, List};
ghost use Rattle.refutation.specs.Common.{Rule};
ghost use Rattle.plan.specs.PlanData.{PlanData};
ghost use Rattle.plan.specs.PlanFaults.{plan_fault};
ghost use Rattle.plan.specs.PlanClaims.{PlacedClaim, claims_in};
ghost use Rattle.plan.specs.Certified.{IsCertifiedPlan};
ghost use Rattle.plan.specs.Shown.{AreShown};
ghost use Rattle.plan.specs.WithCertificates.{with_certificates};
ghost use Rattle.plan.specs.Reused.{ReuseIsFound};

use quorum_checker::no_fault_refutes;

/// Proves that a plan has no fault exactly if it is certified: parents come before their children, no fresh member is
/// one of a configuration above, and the certificates refute their claims.
pub fn no_fault_is_certified()
    ensures certified { (plan : PlanData) → plan_fault plan ≡ None → IsCertifiedPlan plan }
    ensures fault_free { (plan : PlanData) → IsCertifiedPlan plan → plan_fault plan ≡ None }
{
    no_fault_refutes();
}

/// Proves that a plan for whose claims there are rules that refute them is certified, and has no fault once it is
/// written with these rules.
pub fn shown_claims_certify()
    ensures certified { (plan : PlanData) (claims : List PlacedClaim) (rules : List (Option Rule)) → claims_in plan
        ≡ Ok claims → AreShown claims rules → IsCertifiedPlan (with_certificates plan rules) }
    ensures fault_free { (plan : PlanData) (claims : List PlacedClaim) (rules : List (Option Rule)) → claims_in plan
        ≡ Ok claims → AreShown claims rules → plan_fault (with_certificates plan rules) ≡ None }
{
    no_fault_is_certified();
}

/// Proves that a member is reported as reused exactly if a fresh member is one of a configuration above, and that the
/// least such member is reported.
pub fn reuse_is_found()
    ensures { ReuseIsFound }
{}
