//! A production before one of its steps: what is known by then, and whether it is what the step needs.
ghost use Rattle.model.specs.Lawful.{is_visit, Known, Ordered, Before};
ghost use Rattle.model.specs.Lists.{Has, any};
ghost use Rattle.model.specs.Sequences.{section, defines};
ghost use Rattle.scheme.specs.Readiness.{available, AllKnown, ArgumentsKnown, Ready, scheme_at, production_at};
ghost use Rattle.grammar.specs.Views.{scheme_in, production_in, attribute_of, side_of, visit_of, step_of, occurrence_of};
ghost use Rattle.std.specs.Prelude.{◌≡◌, ℕ, map, take, Decides};

use grammar::{Attribute, Occurrence, Scope, Side, Step, VisitNumber};

#[derive(Clone, Copy)]
pub(super) struct Moment<'g> {
    pub(super) scope: Scope<'g>,
    pub(super) step: usize,
}

impl Moment<'_> {
    /// What the step needs is known by then.
    pub(super) fn is_ordered(&self, step: Step) -> bool
        requires { Has (production_at self.now).steps self.now.step (step_of step) }
        ensures { Decides result (Ordered (scheme_at self.now) (production_at self.now) self.now.step) }
    {
        match step {
            Step::Eval(rule) => self.knows_arguments(rule),
            Step::Visit(child, visit) => self.is_ready_to_visit(usize::from(child), visit),
            Step::Leave(visit) => {
                let figure = Attribute {
                    symbol: self.scope.production.left,
                    side: Side::Synthesized,
                    visit,
                };
                self.has_defined_each(0, figure)
            }
        }
    }

    // Each argument of the rule is known.
    fn knows_arguments(&self, rule: usize) -> bool
        ensures { Decides result (ArgumentsKnown (scheme_at self.now) (production_at self.now) self.now.step rule) }
    {
        // An early return, as in `knows` and `is_ready_to_visit`: tried as `is_none_or` and `is_some_and`, but of their closures over the moment the check
        // infers no result, and the proof did not close.
        let Some(rule) = self.scope.production.rules.get(rule) else {
            return true;
        };
        self.knows_each(&rule.arguments)
    }

    // Each of the occurrences is known.
    fn knows_each(&self, arguments: &[Occurrence]) -> bool
        ensures { Decides result (AllKnown (scheme_at self.now) (production_at self.now) self.now.step (map occurrence_of arguments.now)) }
    {
        arguments.iter().all(|o| self.knows(*o))
    }

    // The value of the occurrence is known.
    fn knows(&self, o: Occurrence) -> bool
        ensures { Decides result (Known (scheme_at self.now) (production_at self.now) self.now.step (occurrence_of o)) }
    {
        let Some(a) = self.scope.attribute_at(o) else {
            return false;
        };
        self.is_available(o.position, a.side, a.visit)
    }

    // Of the left symbol an inherited value, from the section of its visit on; of a child a synthesized one, after its visit.
    fn is_available(&self, position: usize, side: Side, visit: VisitNumber) -> bool
        ensures { result ≡ available (production_at self.now) self.now.step position (side_of side) (visit_of visit) }
    {
        match side {
            Side::Inherited => {
                position == 0 && usize::from(visit) <= self.scope.production.section(self.step)
            }
            Side::Synthesized => position > 0 && self.has_visited(position, visit),
        }
    }

    // What the visit to the child needs is defined. Of the left symbol nothing is asked.
    fn is_ready_to_visit(&self, child: usize, visit: VisitNumber) -> bool
        ensures { Decides result (Ready (scheme_at self.now) (production_at self.now) self.now.step child (visit_of visit)) }
    {
        if child == 0 {
            return true;
        }
        let Some(symbol) = self.scope.production.symbol_at(child) else {
            return true;
        };
        let figure = Attribute {
            symbol,
            side: Side::Inherited,
            visit,
        };
        self.has_defined_each(child, figure)
    }

    // Each attribute that is the same figure is defined at the position.
    fn has_defined_each(&self, position: usize, figure: Attribute) -> bool
        ensures { Decides result ((a : ℕ) → Has (scheme_at self.now).attributes a (attribute_of figure) → Before (production_at self.now) self.now.step (record { position = position; attribute = a })) }
    {
        self.scope.grammar.attributes.iter().enumerate().all(|(attribute, a)| {
            let o = Occurrence {
                position,
                attribute,
            };
            *a != figure || self.has_defined(o)
        })
    }

    // A step before gives the occurrence its value. This and the next are a chain and nothing else: a function of a closure would have a clause on the
    // closure besides, and be longer than both.
    fn has_defined(&self, o: Occurrence) -> bool
        ensures { result ≡ any (λ st. defines (production_at self.now) st (occurrence_of o)) (take self.now.step (production_at self.now).steps) }
    {
        let p = self.scope.production;
        p.steps.iter().take(self.step).any(|step| p.gives(*step, o))
    }

    // A step before visits the child at the position for that visit.
    fn has_visited(&self, position: usize, visit: VisitNumber) -> bool
        ensures { result ≡ any (is_visit position (visit_of visit)) (take self.now.step (production_at self.now).steps) }
    {
        self.scope
            .production
            .steps
            .iter()
            .take(self.step)
            .any(|step| step.visits(position, visit))
    }
}
