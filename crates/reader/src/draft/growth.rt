//! What each word adds.
ghost use Rattle.std.specs.Prelude.{◌≡◌, map};
ghost use Rattle.model.specs.Words as Words;
ghost use Rattle.model.specs.Words.{taken, closed, with_step, with_argument, numbered_side};
ghost use Rattle.grammar.specs.Views.{visit_of, side_of, step_of, occurrence_of, rule_of, production_of};
ghost use Rattle.reader.specs.Forms.{form_of};
ghost use Rattle.reader.specs.Reading.{sofar_of, Adds};

use super::{Draft, Next};
use crate::form::Form;
use grammar::{Attribute, Occurrence, Production, Refusal, Rule, Side, Step, VisitNumber};

impl Draft {
    pub(super) fn add(&mut self, form: Form) -> Result<(), Refusal>
        ensures { Adds result (taken (sofar_of self.old) (form_of form) ≡ sofar_of self.new) }
    {
        match form {
            Form::Symbol(visits) => self.add_symbol(visits),
            Form::Attribute { side, visit } => self.add_attribute(side, visit),
            Form::Production { left, children } => self.begin_production(left, children),
            Form::Child(symbol) => self.add_child(symbol),
            Form::Rule {
                number,
                target,
                arguments,
            } => self.add_rule(number, target, arguments),
            Form::Argument(argument) => self.add_argument(argument),
            Form::Step(step) => self.add_step(step),
            Form::End => self.end(),
        }
    }

    fn add_symbol(&mut self, visits: VisitNumber) -> Result<(), Refusal>
        ensures { Adds result (taken (sofar_of self.old) (Words.symbol (visit_of visits)) ≡ sofar_of self.new) }
    {
        self.whole.visits.push(visits)?;
        self.next = Next::Symbols;
        Ok(())
    }

    fn add_attribute(&mut self, side: u8, visit: VisitNumber) -> Result<(), Refusal>
        ensures { Adds result (taken (sofar_of self.old) (Words.attribute side (visit_of visit)) ≡ sofar_of self.new) }
    {
        self.whole.attributes.push(Attribute {
            symbol: self.whole.visits.len().saturating_sub(1),
            side: side_numbered(side),
            visit,
        })?;
        self.next = Next::Symbols;
        Ok(())
    }

    fn begin_production(&mut self, left: usize, children: usize) -> Result<(), Refusal>
        ensures { Adds result (taken (sofar_of self.old) (Words.production left children) ≡ sofar_of self.new) }
    {
        self.close(Production::new(self.alloc, left))?;
        self.next = Next::Children(children).settled();
        Ok(())
    }

    fn add_child(&mut self, symbol: usize) -> Result<(), Refusal>
        ensures { Adds result (taken (sofar_of self.old) (Words.child symbol) ≡ sofar_of self.new) }
    {
        self.current.children.push(symbol)?;
        self.next = self.next.one_less();
        Ok(())
    }

    fn add_rule(&mut self, number: u8, target: Occurrence, arguments: usize) -> Result<(), Refusal>
        ensures { Adds result (taken (sofar_of self.old) (Words.rule number target.position target.attribute arguments) ≡ sofar_of self.new) }
    {
        self.current.rules.push(Rule {
            number,
            target,
            arguments: Vec::new(self.alloc),
        })?;
        self.next = Next::Arguments(arguments).settled();
        Ok(())
    }

    fn add_argument(&mut self, argument: Occurrence) -> Result<(), Refusal>
        ensures { Adds result (taken (sofar_of self.old) (Words.argument argument.position argument.attribute) ≡ sofar_of self.new) }
    {
        append_argument(&mut self.current.rules, argument)?;
        self.next = self.next.one_less();
        Ok(())
    }

    fn add_step(&mut self, step: Step) -> Result<(), Refusal>
        ensures { Adds result (with_step (sofar_of self.old) (step_of step) ≡ sofar_of self.new) }
    {
        self.current.steps.push(step)?;
        self.next = Next::Steps;
        Ok(())
    }

    fn end(&mut self) -> Result<(), Refusal>
        ensures { Adds result (taken (sofar_of self.old) Words.end ≡ sofar_of self.new) }
    {
        self.close(Production::new(self.alloc, 0))?;
        self.next = Next::Nothing;
        Ok(())
    }

    // Puts another production in the place of the current one, which is whole if it has begun.
    fn close(&mut self, another: Production) -> Result<(), Refusal>
        ensures { Adds result (sofar_of self.new ≡ record { visits = (sofar_of self.old).visits; attributes = (sofar_of self.old).attributes; whole = closed (sofar_of self.old); current = production_of another; next = (sofar_of self.old).next }) }
    {
        let begun = self.begun();
        let last = std::mem::replace(&mut self.current, another);
        if begun > 0 {
            self.whole.productions.push(last)?;
        }
        Ok(())
    }
}

// The side that a field says: 0 inherited, any other synthesized. No `From`, which in `grammar` would say of every number that it is a side.
fn side_numbered(field: u8) -> Side
    ensures { side_of result ≡ numbered_side field }
{
    match field {
        0 => Side::Inherited,
        _ => Side::Synthesized,
    }
}

// One more argument of the last rule.
#[tactic(auto, using(crate::proofs::Arguments::argued))]
fn append_argument(rules: &mut Vec<Rule>, argument: Occurrence) -> Result<(), Refusal>
    ensures { Adds result (map rule_of rules.new.items ≡ with_argument (occurrence_of argument) (map rule_of rules.old.items)) }
{
    if let Some(rule) = rules.last_mut() {
        rule.arguments.push(argument)?;
    }
    Ok(())
}
