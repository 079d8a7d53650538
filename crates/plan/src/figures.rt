//! The attributes of a scheme with their sections.
ghost use Rattle.model.specs.Lists.{Has};
ghost use Rattle.model.specs.Tables.{all_sections};
ghost use Rattle.grammar.specs.Views.{attribute_of};
ghost use Rattle.scheme.specs.Whole.{scheme_of};
ghost use Rattle.plan.specs.Views.{sections_of};
ghost use Rattle.std.proofs.Props.{props};
ghost use Rattle.std.specs.Prelude.{◌≡◌, map};

use super::span::{Figure, Sections};
use grammar::Attribute;
use scheme::Scheme;

/// A scheme with the sections of all its attributes, in a row beside them, since the attributes are the scheme's own.
#[derive(Clone, Copy)]
pub(crate) struct Figures<'s> {
    pub scheme: &'s Scheme,
    pub sections: &'s [Sections],
    ghost sectioned: { map sections_of sections.now ≡ all_sections (scheme_of scheme.now) } by { Prim.hlevel props },
}

impl<'s> Figures<'s> {
    /// The attribute of that number, with its sections.
    pub(crate) fn figure(&self, number: usize, attribute: Attribute) -> Figure<'s>
        requires { Has (scheme_of self.now.scheme.now).attributes number (attribute_of attribute) }
        ensures numbered { result.number ≡ number }
        ensures attributed { result.attribute ≡ attribute }
        ensures same { result.scheme.now ≡ self.now.scheme.now }
    {
        Figure {
            scheme: self.scheme,
            number,
            attribute,
            sections: self.sections[number],
        }
    }
}
