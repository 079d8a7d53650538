//! The function here holds nothing: it asks, by its contract, for the proof of a theorem about plans.
ghost use Rattle.model.specs.Formed.{Formed};
ghost use Rattle.model.specs.Scheme.{Scheme};
ghost use Rattle.plan.specs.declared.plan.Plan as declared;
ghost use Rattle.plan.specs.Settled.{Settled, Agree};

/// A scheme has one plan: two that are settled for it say the same.
#[tactic(auto, using(model::proofs::Main::plan_determined))]
pub fn one_plan() -> u8
    ensures { (s : Scheme) (p q : declared.Plan) → Formed s → Settled s p → Settled s q → Agree p q }
{
    0
}
