//! A scheme's words as entries: a symbol with its attributes, a production with its children, a rule with its arguments, a step.
ghost use Rattle.std.specs.Prelude.{◌≡◌};
ghost use Rattle.model.specs.Words.{kind};
ghost use Rattle.reader.specs.Entries.{part_of, Begins};

use crate::kind::Kind;
use crate::part::Part;

#[derive(Clone, Copy)]
pub enum Entry<'a> {
    Symbol(Part<'a>),
    Production(Part<'a>),
    Rule(Part<'a>),
    Step(Part<'a>),
    /// one word that begins none of these: the end word, or a word out of order
    Other(Part<'a>),
}

impl<'a> Entry<'a> {
    /// The entry that a part is whose first word is `head`.
    pub(crate) fn of(head: u32, part: Part<'a>) -> Entry<'a>
        ensures begins { Begins result (kind head) }
        ensures words { part_of result ≡ part.entry }
    {
        match Kind::of(head) {
            Some(Kind::Symbol) => Entry::Symbol(part),
            Some(Kind::Production) => Entry::Production(part),
            Some(Kind::Rule) => Entry::Rule(part),
            Some(Kind::Eval | Kind::Visit | Kind::Leave) => Entry::Step(part),
            _ => Entry::Other(part),
        }
    }
}
