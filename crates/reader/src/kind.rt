//! The kinds of word.
ghost use Rattle.std.proofs.Math.Option.{none};
ghost use Rattle.std.specs.Prelude.{◌≡◌, MatchOption};
ghost use Rattle.model.specs.Words.{kind, fields};
ghost use Rattle.reader.specs.Kinds.{number_of};

#[derive(Clone, Copy, PartialEq, Eq)]
pub enum Kind {
    Symbol,
    Attribute,
    Production,
    Child,
    Rule,
    Argument,
    Eval,
    Visit,
    Leave,
    End,
}

impl Kind {
    /// The kind of a word, whose number stands in the word's top four bits; some numbers are no kind's. The one place where a kind is a number: words are numbers.
    pub(crate) fn of(word: u32) -> Option<Kind>
        ensures { MatchOption result (fields (kind word) word ≡ none) (λ k. kind word ≡ number_of k) }
    {
        match word >> 28 {
            1 => Some(Kind::Symbol),
            2 => Some(Kind::Attribute),
            3 => Some(Kind::Production),
            4 => Some(Kind::Child),
            5 => Some(Kind::Rule),
            6 => Some(Kind::Argument),
            7 => Some(Kind::Eval),
            8 => Some(Kind::Visit),
            9 => Some(Kind::Leave),
            15 => Some(Kind::End),
            _ => None,
        }
    }
}
