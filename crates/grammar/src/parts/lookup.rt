//! What stands at a place of a grammar, or nothing past the end; tests of its parts.
ghost use Rattle.model.specs.Scheme.{symbol_at, attribute_at};
ghost use Rattle.model.specs.Sequences.{is_leave};
ghost use Rattle.grammar.specs.Views.{option_of, same, visit_of, attribute_of, occurrence_of, step_of, production_of, grammar_of, scheme_in, production_in};
ghost use Rattle.std.proofs.Math.ListN.{get_elem?};
ghost use Rattle.std.specs.Prelude.{◌≡◌, []};

use super::{Attribute, Grammar, Occurrence, Production, Scope, Step, VisitNumber};
use std::alloc::Global;

impl Grammar {
    /// The last visit of a symbol.
    pub fn last_visit(&self, symbol: usize) -> Option<VisitNumber>
        ensures { option_of visit_of result ≡ get_elem? (grammar_of self.now).visits symbol }
    {
        self.visits.get(symbol).copied()
    }

    pub fn attribute(&self, number: usize) -> Option<Attribute>
        ensures { option_of attribute_of result ≡ get_elem? (grammar_of self.now).attributes number }
    {
        self.attributes.get(number).copied()
    }
}

impl Production {
    /// A production of a symbol, with nothing in it yet.
    pub fn new(alloc: Global, left: usize) -> Production
        ensures { production_of result ≡ record { left = left; children = []; rules = []; steps = [] } }
    {
        Production {
            left,
            children: Vec::new(alloc),
            rules: Vec::new(alloc),
            steps: Vec::new(alloc),
        }
    }

    /// The symbol at a position: 0 is the left symbol, 1 to 6 are the children.
    pub fn symbol_at(&self, position: usize) -> Option<usize>
        ensures { option_of same result ≡ symbol_at (production_of self.now) position }
    {
        match position.checked_sub(1) {
            None => Some(self.left),
            Some(k) => self.children.get(k).copied(),
        }
    }
}

impl Step {
    pub fn is_leave(self) -> bool
        ensures { result ≡ is_leave (step_of self) }
    {
        matches!(self, Step::Leave(_))
    }
}

impl Scope<'_> {
    /// The attribute of the occurrence, if it is one of the symbol at its position.
    pub fn attribute_at(&self, o: Occurrence) -> Option<Attribute>
        ensures { option_of attribute_of result ≡ attribute_at (scheme_in self.now) (production_in self.now) (occurrence_of o) }
    {
        let symbol = self.production.symbol_at(o.position)?;
        self.grammar
            .attribute(o.attribute)
            .filter(|a| a.symbol == symbol)
    }
}
