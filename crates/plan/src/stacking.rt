//! Whether the values of an attribute can lie on a stack: whether its spans in each production open and close as a stack's do.
ghost use Rattle.std.specs.Prelude.{◌≡◌, ◌*◌, ◌^◌, ◌<◌, ◌&&◌, map, IfOk};
ghost use Rattle.std.specs.List.{list_all};
ghost use Rattle.model.specs.Sequences.{is_visit_of};
ghost use Rattle.model.specs.Spans as Spans;
ghost use Rattle.grammar.specs.Views.{attribute_of, production_of, step_of};
ghost use Rattle.scheme.specs.Whole.{scheme_of};
ghost use Rattle.plan.specs.Stacks.{on_top_at_visits, stacked_with};
ghost use Rattle.plan.specs.Views.{bounded_of, span_of};

use super::bounded::Bounded;
use super::span::{Figure, Span, spans_of};
use grammar::{ChildNumber, Production, Step};
use std::alloc::{AllocError, Global};

impl Span {
    // The span opens and closes in one section.
    fn in_one_section(self, p: &Production) -> bool
        ensures { result ≡ Spans.in_one_section (production_of p.now) (span_of self) }
    {
        p.section(self.opens_at) == p.section(self.closes_at)
    }

    // The two spans are apart, or the later opened closes no later.
    fn is_nested(self, other: Span) -> bool
        ensures { result ≡ Spans.nested (span_of self) (span_of other) }
    {
        other.opens <= self.opens || self.closes < other.opens || other.closes <= self.closes
    }

    // At VISIT t the spans are not both open with the other opened later than this one.
    fn is_on_top(self, other: Span, t: usize) -> bool
        requires { 3 * t < 2 ^ 64 }
        ensures { result ≡ Spans.on_top (span_of self) (span_of other) t }
    {
        !(self.is_open(3 * t) && self.opens < other.opens && other.is_open(3 * t))
    }
}

// The step visits the child.
fn visits_child(step: Step, child: ChildNumber) -> bool
    ensures { result ≡ is_visit_of child.0 (step_of step) }
{
    matches!(step, Step::Visit(k, _) if child == k)
}

// At each visit of x's child, y does not lie above x.
fn is_on_top_at_visits(p: &Bounded, x: Span, y: Span) -> bool
    ensures { result ≡ on_top_at_visits (bounded_of p.now) (span_of x) (span_of y) }
{
    p.production
        .steps
        .iter()
        .enumerate()
        .filter(|(_, step)| visits_child(**step, x.child))
        .all(|(t, _)| x.is_on_top(y, t))
}

// The spans are as two of one stack are: apart or one inside the other, and y does not lie above x at the visits of x's child.
fn is_stacked_with(p: &Bounded, x: Span, y: Span) -> bool
    ensures { result ≡ stacked_with (bounded_of p.now) (span_of x) (span_of y) }
{
    x.is_nested(y) && is_on_top_at_visits(p, x, y)
}

// The span and each of the spans are as two of one stack are.
fn is_stacked_with_all(p: &Bounded, x: Span, spans: &[Span]) -> bool
    ensures { result ≡ list_all (λ y. stacked_with (bounded_of p.now) (span_of x) (span_of y)) spans.now }
{
    spans.iter().all(|y| is_stacked_with(p, x, *y))
}

// The span opens and closes as one of a stack does that holds the spans.
fn is_stacked_among(p: &Bounded, x: Span, spans: &[Span]) -> bool
    ensures { result ≡ (Spans.in_one_section (bounded_of p.now) (span_of x) && list_all (λ y. stacked_with (bounded_of p.now) (span_of x) (span_of y)) spans.now) }
{
    x.in_one_section(p.production) && is_stacked_with_all(p, x, spans)
}

// The spans of one attribute in a production open and close as those of a stack do.
fn stack_up(p: &Bounded, spans: &[Span]) -> bool
    ensures { result ≡ Spans.stack_up (bounded_of p.now) (map span_of spans.now) }
{
    spans.iter().all(|x| is_stacked_among(p, *x, spans))
}

/// The spans of the figure open and close as those of a stack do in every production.
pub(crate) fn stacks(alloc: Global, figure: &Figure) -> Result<bool, AllocError>
    ensures { IfOk result (λ x. x ≡ Spans.stacks (scheme_of figure.now.scheme.now) figure.now.number (attribute_of figure.now.attribute)) }
{
    for production in &figure.scheme.grammar().productions {
        let p = Bounded { production };
        let spans = spans_of(alloc, &p, figure)?;
        if !stack_up(&p, &spans) {
            return Ok(false);
        }
    }
    Ok(true)
}
