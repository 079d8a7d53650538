//! The spans of an attribute in a production.
ghost use Rattle.std.specs.Prelude.{◌≡◌, map, IfOk};
ghost use Rattle.model.specs.Spans.{span_on, spans};
ghost use Rattle.grammar.specs.Views.{attribute_of, side_of};
ghost use Rattle.scheme.specs.Whole.{scheme_of};
ghost use Rattle.plan.specs.Views.{bounded_of, sections_of, span_of};

use super::places::{first_giving, first_visit, last_reading};
use super::{Figure, Span};
use crate::bounded::Bounded;
use grammar::{ChildNumber, Occurrence, Side};
use std::alloc::{AllocError, Global};

/// The span of the figure at a child. An inherited one opens at the EVAL that gives it, and closes after the VISIT of its last
/// section. A synthesized one opens before the VISIT of its first section, and closes at the last EVAL that reads it, or after the VISIT of its last section.
pub(crate) fn span_at(p: &Bounded, figure: &Figure, child: ChildNumber) -> Span
    ensures { span_of result ≡ span_on (bounded_of p.now) figure.now.number (side_of figure.now.attribute.side) (sections_of figure.now.sections) child.0 }
{
    let o = Occurrence {
        position: usize::from(child),
        attribute: figure.number,
    };
    let last = first_visit(p.production, child, figure.sections.last);
    match figure.attribute.side {
        Side::Inherited => {
            let opens_at = first_giving(p.production, o);
            Span {
                child,
                opens_at,
                opens: 3 * opens_at + 2,
                closes_at: last,
                closes: 3 * last + 1,
            }
        }
        Side::Synthesized => {
            let opens_at = first_visit(p.production, child, figure.sections.first);
            let closes_at = last_reading(p.production, o, last);
            Span {
                child,
                opens_at,
                opens: 3 * opens_at,
                closes_at,
                closes: 3 * closes_at + 1,
            }
        }
    }
}

/// The spans of the figure at the children that are its symbol.
pub(crate) fn spans_of(alloc: Global, p: &Bounded, figure: &Figure) -> Result<Vec<Span>, AllocError>
    ensures { IfOk result (λ v. map span_of v.items ≡ spans (scheme_of figure.now.scheme.now) figure.now.number (attribute_of figure.now.attribute) (bounded_of p.now)) }
{
    p.production
        .children
        .iter()
        .enumerate()
        .filter(|(_, symbol)| **symbol == figure.attribute.symbol)
        // a production has at most six children, so the number fits; `try_from` would give an error that cannot come
        .map(|(k, _)| span_at(p, figure, ChildNumber(k as u8 + 1)))
        .collect(alloc)
}
