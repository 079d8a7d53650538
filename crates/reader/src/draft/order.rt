//! Which kinds of word may come next, and what comes after them.
ghost use Rattle.std.specs.Prelude.{◌≡◌, nat_eq};
ghost use Rattle.model.specs.Lists.{any};
ghost use Rattle.model.specs.Words.{kinds, one_less};
ghost use Rattle.reader.specs.Kinds.{number_of};
ghost use Rattle.reader.specs.Reading.{next_of, settled};

use super::Next;
use crate::kind::Kind;

impl Next {
    pub(super) fn allows(self, kind: Kind) -> bool
        ensures { result ≡ any (nat_eq (number_of kind)) (kinds (next_of self)) }
    {
        match self {
            Next::FirstSymbol => kind == Kind::Symbol,
            Next::Symbols => matches!(kind, Kind::Symbol | Kind::Attribute | Kind::Production),
            Next::Children(_) => kind == Kind::Child,
            Next::Rules => matches!(kind, Kind::Rule | Kind::Eval | Kind::Visit | Kind::Leave),
            Next::Arguments(_) => kind == Kind::Argument,
            Next::Steps => matches!(
                kind,
                Kind::Production | Kind::Eval | Kind::Visit | Kind::Leave | Kind::End
            ),
            Next::Nothing => false,
        }
    }

    /// Rules come where no child and no argument is left to come.
    pub(super) fn settled(self) -> Next
        ensures { next_of result ≡ settled (next_of self) }
    {
        match self {
            Next::Children(0) | Next::Arguments(0) => Next::Rules,
            other => other,
        }
    }

    /// What may come after a child or an argument.
    pub(super) fn one_less(self) -> Next
        ensures { next_of result ≡ one_less (next_of self) }
    {
        match self {
            Next::Children(left) => Next::Children(left.saturating_sub(1)).settled(),
            Next::Arguments(left) => Next::Arguments(left.saturating_sub(1)).settled(),
            other => other,
        }
    }
}
