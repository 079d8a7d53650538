//! Spans: for how long a stack holds a child's value of an attribute.
ghost use Rattle.model.specs.Lists.{Has};
ghost use Rattle.model.specs.Spans.{attribute_sections, open_during};
ghost use Rattle.grammar.specs.Views.{attribute_of};
ghost use Rattle.scheme.specs.Whole.{scheme_of};
ghost use Rattle.plan.specs.Views.{sections_of, span_of};
ghost use Rattle.std.proofs.Props.{props};
ghost use Rattle.std.specs.Prelude.{◌≡◌};

mod making;
mod places;

use grammar::{Attribute, ChildNumber, VisitNumber};
pub(crate) use making::{span_at, spans_of};
use scheme::Scheme;

/// The first and the last section of its symbol in which an attribute may be given its value or read.
#[derive(Clone, Copy)]
pub struct Sections {
    pub first: VisitNumber,
    pub last: VisitNumber,
}

/// An attribute of a scheme with its number and its sections.
#[derive(Clone, Copy)]
pub(crate) struct Figure<'s> {
    pub scheme: &'s Scheme,
    pub number: usize,
    pub attribute: Attribute,
    pub sections: Sections,
    ghost known: { Has (scheme_of scheme.now).attributes number (attribute_of attribute) } by { Prim.hlevel props },
    ghost sectioned: { sections_of sections ≡ attribute_sections (scheme_of scheme.now) number (attribute_of attribute) } by { Prim.hlevel props },
}

/// The steps at which the span of a child's attribute opens and closes, and the moments there. Step t has the moments 3t, before a VISIT, 3t + 1, after a VISIT
/// or where an EVAL has read its arguments, and 3t + 2, where an EVAL gives its target: the numbers that the
/// definitions have, whose order is that of the moments.
#[derive(Clone, Copy)]
pub struct Span {
    pub child: ChildNumber,
    pub opens_at: usize,
    pub opens: usize,
    pub closes_at: usize,
    pub closes: usize,
}

impl Span {
    /// The span is open at the moment.
    pub(crate) fn is_open(self, moment: usize) -> bool
        ensures { result ≡ open_during moment (span_of self) }
    {
        (self.opens..self.closes).contains(&moment)
    }
}
