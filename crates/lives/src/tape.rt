//! The tape of a scheme: the events of its productions, one production after another.
ghost use Rattle.model.specs.Scheme.{symbol_at};
ghost use Rattle.model.specs.Tape as Model;
ghost use Rattle.model.specs.Tape.{section_events, rule_events, visit_events, step_events, production_tape};
ghost use Rattle.grammar.specs.Views.{grammar_of, production_of, step_of, visit_of, scheme_in, production_in};
ghost use Rattle.std.specs.Prelude.{◌≡◌, suc, ◌∷◌, IfOk};
ghost use Rattle.std.proofs.Math.ListN.{get_elem?};

use super::event::Event;
use super::uses::Arrival;
use grammar::{ChildNumber, Grammar, Production, Rule, Scope, Side, Step, VisitNumber};
use std::alloc::{AllocError, Global};

/// The events of a scheme's productions, as far as they are written.
#[derive(Drop)]
pub struct Tape {
    pub events: Vec<Event>,
}

impl Tape {
    ghost use Rattle.lives.specs.Views.{events_in};
    ghost use Rattle.lives.specs.Writing.{Written};

    /// The events of all productions.
    pub(crate) fn of(alloc: Global, grammar: &Grammar) -> Result<Tape, AllocError>
        ensures { IfOk result (λ v. events_in v ≡ Model.tape (grammar_of grammar.now)) }
    {
        let mut tape = Tape {
            events: Vec::new(alloc),
        };
        for production in &grammar.productions {
            let scope = Scope {
                grammar,
                production,
            };
            tape.write_production(&scope)?;
        }
        Ok(tape)
    }

    // A production opens, its first section starts, and its steps follow.
    fn write_production(&mut self, scope: &Scope<'_>) -> Result<(), AllocError>
        ensures { Written result self.old self.new (production_tape (scheme_in scope.now) (production_in scope.now)) }
    {
        self.events.push(Event::Opens(scope.production.left))?;
        self.write_start(scope, 1)?;
        for (t, step) in scope.production.steps.iter().enumerate() {
            self.write_step(scope, t, *step)?;
        }
        Ok(())
    }

    // The events of step t.
    fn write_step(&mut self, scope: &Scope<'_>, t: usize, step: Step) -> Result<(), AllocError>
        ensures { Written result self.old self.new (step_events (scheme_in scope.now) (production_in scope.now) t (step_of step)) }
    {
        match step {
            Step::Eval(rule) => self.write_eval(scope.production, t, rule),
            Step::Visit(child, visit) => self.write_visit(scope, child, visit),
            Step::Leave(visit) => self.write_leave(scope, visit),
        }
    }

    // Where a section starts, the inherited lives that no step reads end.
    fn write_start(&mut self, scope: &Scope<'_>, section: usize) -> Result<(), AllocError>
        ensures { Written result self.old self.new (section_events (scheme_in scope.now) (production_in scope.now) section) }
    {
        let arrival = Arrival {
            position: 0,
            symbol: scope.production.left,
            side: Side::Inherited,
            visit: section,
        };
        self.end_unused(scope, arrival)
    }

    // An EVAL of the rule ends the lives that are read there for the last time, and then begins its target's.
    fn write_eval(&mut self, p: &Production, t: usize, rule: usize) -> Result<(), AllocError>
        ensures { Written result self.old self.new (rule_events (production_of p.now) t (get_elem? (production_of p.now).rules rule)) }
    {
        let Some(rule) = p.rules.get(rule) else {
            return Ok(());
        };
        self.end_arguments(p, t, &rule.arguments)?;
        self.events.push(Event::Begins(rule.target.attribute))?;
        Ok(())
    }

    // After a visit, the synthesized lives that it brings and no step reads end.
    fn write_visit(
        &mut self,
        scope: &Scope<'_>,
        child: ChildNumber,
        visit: VisitNumber,
    ) -> Result<(), AllocError>
        ensures { Written result self.old self.new (visit_events (scheme_in scope.now) (production_in scope.now) child.0 (visit_of visit) (symbol_at (production_in scope.now) child.0)) }
    {
        let position = usize::from(child);
        let section = usize::from(visit);
        let Some(symbol) = scope.production.symbol_at(position) else {
            return Ok(());
        };
        self.events.push(Event::Visits { symbol, section })?;
        let arrival = Arrival {
            position,
            symbol,
            side: Side::Synthesized,
            visit: section,
        };
        self.end_unused(scope, arrival)
    }

    // After a LEAVE the next section starts.
    fn write_leave(&mut self, scope: &Scope<'_>, visit: VisitNumber) -> Result<(), AllocError>
        ensures { Written result self.old self.new (Model.leaves (visit_of visit) ∷ section_events (scheme_in scope.now) (production_in scope.now) (suc (visit_of visit))) }
    {
        let section = usize::from(visit);
        self.events.push(Event::Leaves { section })?;
        self.write_start(scope, section + 1)
    }
}
