//! What is asked of a word before it is taken.
ghost use Rattle.std.specs.Prelude.{◌≡◌, suc, length, nat_eq, true, MatchOption};
ghost use Rattle.std.proofs.Math.ListN.{get_elem?};
ghost use Rattle.std.proofs.Math.Option.{some};
ghost use Rattle.model.specs.Lists.{any, count};
ghost use Rattle.model.specs.Scheme as Model;
ghost use Rattle.model.specs.Words as Words;
ghost use Rattle.model.specs.Words.{passes_limit, present, right_sort};
ghost use Rattle.grammar.specs.Views.{option_of, visit_of};
ghost use Rattle.reader.specs.Forms.{form_of};
ghost use Rattle.reader.specs.Kinds.{number_of};
ghost use Rattle.reader.specs.Reading.{sofar_of, next_of, Judges};

use super::{Draft, Next};
use crate::form::Form;
use crate::kind::Kind;
use grammar::{ChildNumber, Occurrence, Refusal, Scope, Side, Step, VisitNumber};

// The most symbols, attributes and productions that a scheme has.
const MOST_SYMBOLS: usize = 32;

const MOST_ATTRIBUTES: usize = 128;

const MOST_PRODUCTIONS: usize = 64;

// The most attributes that one symbol has.
const MOST_ATTRIBUTES_OF_SYMBOL: usize = 16;

// The most rules and steps that one production has.
const MOST_RULES: usize = 32;

const MOST_STEPS: usize = 64;

impl Draft {
    /// What the word at this place says, if there is no cause to refuse it.
    pub(super) fn judge(&self, place: usize, word: u32) -> Result<Form, Refusal>
        ensures { Judges (sofar_of self.now) place word result }
    {
        // The questions are asked in this order, and the first that goes against the word is why it is refused.
        let kind = self
            .kind_in_order(word)
            .ok_or(Refusal::OutOfOrder { word: place })?;
        let form = Form::of(kind, word);
        if self.passes_limit(form) {
            return Err(Refusal::OverLimit { word: place });
        }
        if !form.is_well_made(word) {
            return Err(Refusal::BadField { word: place });
        }
        if !self.is_present(form) {
            return Err(Refusal::Absent { word: place });
        }
        if !self.is_right_sort(form) {
            return Err(Refusal::WrongSort { word: place });
        }
        Ok(form)
    }

    // The word's kind, if a word of that kind may come next.
    fn kind_in_order(&self, word: u32) -> Option<Kind>
        ensures { MatchOption result (Words.objection (sofar_of self.now) word ≡ some 3) (λ k. (Words.kind word ≡ number_of k) × (any (nat_eq (number_of k)) (Words.kinds (next_of self.now.next)) ≡ true)) }
    {
        Kind::of(word).filter(|kind| self.next.allows(*kind))
    }

    // One more word of this form passes a limit.
    fn passes_limit(&self, form: Form) -> bool
        ensures { result ≡ passes_limit (sofar_of self.now) (form_of form) }
    {
        match form {
            Form::Symbol(_) => self.whole.visits.len() >= MOST_SYMBOLS,
            Form::Attribute { .. } => {
                self.attributes_of_last_symbol() >= MOST_ATTRIBUTES_OF_SYMBOL
                    || self.whole.attributes.len() >= MOST_ATTRIBUTES
            }
            Form::Production { .. } => self.begun() >= MOST_PRODUCTIONS,
            Form::Rule { .. } => self.current.rules.len() >= MOST_RULES,
            Form::Step(_) => self.current.steps.len() >= MOST_STEPS,
            Form::Child(_) | Form::Argument(_) | Form::End => false,
        }
    }

    // What the word speaks of is there.
    fn is_present(&self, form: Form) -> bool
        ensures { result ≡ present (sofar_of self.now) (form_of form) }
    {
        match form {
            Form::Symbol(_) | Form::End => true,
            Form::Attribute { visit, .. } => within(visit, self.whole.visits.last().copied()),
            Form::Production { left: symbol, .. } | Form::Child(symbol) => {
                symbol < self.whole.visits.len()
            }
            Form::Rule {
                target: occurrence,
                ..
            }
            | Form::Argument(occurrence) => self.belongs(occurrence),
            Form::Step(Step::Eval(rule)) => rule < self.current.rules.len(),
            Form::Step(Step::Visit(child, visit)) => within(visit, self.last_visit_of(child)),
            Form::Step(Step::Leave(visit)) => {
                within(visit, self.whole.last_visit(self.current.left))
            }
        }
    }

    // A rule's target is an occurrence that the production defines, and an argument one that it uses.
    fn is_right_sort(&self, form: Form) -> bool
        ensures { result ≡ right_sort (sofar_of self.now) (form_of form) }
    {
        match form {
            Form::Rule { target, .. } => self.defines(target),
            Form::Argument(argument) => !self.defines(argument),
            Form::Symbol(_)
            | Form::Attribute { .. }
            | Form::Production { .. }
            | Form::Child(_)
            | Form::Step(_)
            | Form::End => true,
        }
    }

    /// How many productions have begun.
    pub(super) fn begun(&self) -> usize
        ensures { result ≡ Words.begun (sofar_of self.now) (next_of self.now.next) }
    {
        match self.next {
            Next::FirstSymbol | Next::Symbols => 0,
            Next::Children(_) | Next::Rules | Next::Arguments(_) | Next::Steps | Next::Nothing =>
                self.whole.productions.len() + 1,
        }
    }

    fn attributes_of_last_symbol(&self) -> usize
        ensures { result ≡ count (λ a. nat_eq (suc a.symbol) (length (sofar_of self.now).visits)) (sofar_of self.now).attributes }
    {
        let Some(last) = self.whole.visits.len().checked_sub(1) else {
            return 0;
        };
        // a `for`: this is asked at every attribute word, and `filter(..).count()`, with a branch for each attribute, took half as long again
        let mut count = 0;
        for attribute in &self.whole.attributes {
            count += usize::from(attribute.symbol == last);
        }
        count
    }

    // The attribute is one of the symbol at that position of the current production.
    fn belongs(&self, occurrence: Occurrence) -> bool
        ensures { result ≡ Words.belongs (Model.symbol_at (sofar_of self.now).current occurrence.position) (get_elem? (sofar_of self.now).attributes occurrence.attribute) }
    {
        let scope = Scope {
            grammar: &self.whole,
            production: &self.current,
        };
        scope.attribute_at(occurrence).is_some()
    }

    // Synthesized at the left symbol, or inherited at a child. The rules' check asks this of a side; here the attribute may be absent.
    fn defines(&self, occurrence: Occurrence) -> bool
        ensures { result ≡ Words.defined_here occurrence.position (get_elem? (sofar_of self.now).attributes occurrence.attribute) }
    {
        let attribute = self.whole.attribute(occurrence.attribute);
        let inherited = attribute.is_some_and(|attribute| attribute.side == Side::Inherited);
        inherited == (occurrence.position > 0)
    }

    // The last visit of a child of the current production: two look-ups in a row, as the check of sequences has them of a whole grammar.
    fn last_visit_of(&self, child: ChildNumber) -> Option<VisitNumber>
        ensures { option_of visit_of result ≡ Words.visits_at (sofar_of self.now) (Model.symbol_at (sofar_of self.now).current child.0) }
    {
        self.current
            .symbol_at(usize::from(child))
            .and_then(|symbol| self.whole.last_visit(symbol))
    }
}

// A visit is not above the last one.
fn within(visit: VisitNumber, last: Option<VisitNumber>) -> bool
    ensures { result ≡ Words.within (visit_of visit) (option_of visit_of last) }
{
    last.is_some_and(|last| visit <= last)
}
