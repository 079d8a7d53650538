//! A scheme: a grammar of which every rule holds.
ghost use Rattle.model.specs.Formed.{Formed, Limited};
ghost use Rattle.model.specs.Lawful.{Lawful};
ghost use Rattle.grammar.specs.Views.{grammar_of};

use grammar::Grammar;

mod agreement;
mod reading;

pub use agreement::one_answer;

#[derive(Drop)]
pub struct Scheme {
    grammar: Grammar,
    ghost formed: { ∥ Formed (grammar_of grammar) ∥₁ },
    ghost limited: { ∥ Limited (grammar_of grammar) ∥₁ },
    ghost lawful: { ∥ Lawful (grammar_of grammar) ∥₁ },
}
