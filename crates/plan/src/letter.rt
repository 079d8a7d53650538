//! The letter of an attribute.
ghost use Rattle.model.specs.Plan.{is_stacked};
ghost use Rattle.plan.specs.Text.{mark};
ghost use Rattle.plan.specs.Views.{letter_of};
ghost use Rattle.std.specs.Prelude.{◌≡◌, Some};

use std::fmt;

/// Where an attribute's figures live.
#[derive(Clone, Copy, PartialEq, Eq, Debug)]
pub enum Letter {
    /// C: all share a single cell
    Single,
    /// S: on a stack of the attribute's own
    Stacked,
    /// K: each is kept in the tree
    Kept,
}

impl Letter {
    /// On a stack of the attribute's own.
    pub(crate) fn is_stacked(self) -> bool
        ensures { result ≡ is_stacked (letter_of self) }
    {
        matches!(self, Letter::Stacked)
    }

    /// C, S or K.
    pub(crate) fn mark(self) -> &'static str
        ensures { result.now ≡ mark (letter_of self) }
    {
        match self {
            Letter::Single => "C",
            Letter::Stacked => "S",
            Letter::Kept => "K",
        }
    }
}

// Its mark.
impl fmt::Display for Letter {
    ghost output = { λ l. Some (mark (letter_of l)) };

    fn fmt<W: fmt::Write>(&self, f: &mut fmt::Formatter<W>) -> fmt::Result {
        f.write_str(self.mark())
    }
}
