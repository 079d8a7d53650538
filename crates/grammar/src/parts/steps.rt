//! What a step of a production does: which section it is in, what it reads and gives, which child it visits.
ghost use Rattle.model.specs.Lawful.{is_visit};
ghost use Rattle.model.specs.Lists.{any};
ghost use Rattle.model.specs.Scheme.{same_occurrence};
ghost use Rattle.model.specs.Sequences as Sequences;
ghost use Rattle.model.specs.Sequences.{step_rule, uses, defines};
ghost use Rattle.grammar.specs.Views.{option_of, visit_of, occurrence_of, rule_of, step_of, production_of};
ghost use Rattle.std.proofs.Math.ListN.{get_elem?};
ghost use Rattle.std.specs.Prelude.{◌≡◌, map};

use super::{Occurrence, Production, Rule, Step, VisitNumber};

impl Step {
    /// The step visits the child at the position for that visit.
    pub fn visits(self, position: usize, visit: VisitNumber) -> bool
        ensures { result ≡ is_visit position (visit_of visit) (step_of self) }
    {
        matches!(self, Step::Visit(k, j) if position == usize::from(k) && visit == j)
    }
}

impl Production {
    /// The number of the section that step t is in, from 1; past the last step, that of one more.
    pub fn section(&self, t: usize) -> usize
        ensures { result ≡ Sequences.section (production_of self.now) t }
    {
        // a `for`: `take(t).filter(..).count()` asks a branch and counts down at each step, and took two thirds more instructions
        let mut leaves = 0;
        for step in &self.steps[..t.min(self.steps.len())] {
            leaves += usize::from(step.is_leave());
        }
        leaves + 1
    }

    /// The rule that the step evaluates, if it is an EVAL and the rule is there.
    pub fn evaluated(&self, step: Step) -> Option<&Rule>
        ensures { option_of (λ r. rule_of r.now) result ≡ step_rule (production_of self.now) (step_of step) }
    {
        match step {
            Step::Eval(rule) => self.rules.get(rule),
            _ => None,
        }
    }

    /// The step gives the occurrence its value.
    pub fn gives(&self, step: Step, o: Occurrence) -> bool
        ensures { result ≡ defines (production_of self.now) (step_of step) (occurrence_of o) }
    {
        self.evaluated(step).is_some_and(|rule| o == rule.target)
    }

    /// The step reads the value of the occurrence.
    pub fn reads(&self, step: Step, o: Occurrence) -> bool
        ensures { result ≡ uses (production_of self.now) (step_of step) (occurrence_of o) }
    {
        self.evaluated(step)
            .is_some_and(|rule| o.is_among(&rule.arguments))
    }
}

impl Occurrence {
    /// The occurrence is one of these.
    pub fn is_among(self, others: &[Occurrence]) -> bool
        ensures { result ≡ any (same_occurrence (occurrence_of self)) (map occurrence_of others.now) }
    {
        others.contains(&self)
    }
}
