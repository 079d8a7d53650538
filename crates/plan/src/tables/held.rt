//! The spans that a production has on stacks.
ghost use Rattle.model.specs.Plan.{is_stacked};
ghost use Rattle.model.specs.Spans.{spans};
ghost use Rattle.model.specs.Tables as Tables;
ghost use Rattle.model.specs.Tables.{on_stack};
ghost use Rattle.plan.specs.Views.{bounded_of, letter_of, stack_span_of};
ghost use Rattle.grammar.specs.Views.{attribute_of};
ghost use Rattle.scheme.specs.Whole.{scheme_of};
ghost use Rattle.std.specs.Prelude.{◌≡◌, [], ◌++◌, map, IfOk, OnOk, if◌then◌else◌};

use super::StackSpan;
use crate::bounded::Bounded;
use crate::figures::Figures;
use crate::letter::Letter;
use crate::plan::AttributePlan;
use crate::span::{Figure, spans_of};
use std::alloc::{AllocError, Global};

// Adds the spans of the figure in the production, if they are on a stack.
fn add_figure(
    alloc: Global,
    held: &mut Vec<StackSpan>,
    bounded: &Bounded,
    figure: &Figure,
    letter: Letter,
) -> Result<(), AllocError>
    ensures { OnOk result (map stack_span_of held.new.items ≡ map stack_span_of held.old.items ++ (if is_stacked (letter_of letter) then on_stack figure.now.number (spans (scheme_of figure.now.scheme.now) figure.now.number (attribute_of figure.now.attribute) (bounded_of bounded.now)) else [])) }
{
    if !letter.is_stacked() {
        return Ok(());
    }
    let attribute = figure.number;
    let spans = spans_of(alloc, bounded, figure)?;
    held.extend(
        spans.iter().map(|span| StackSpan {
            attribute,
            span: *span,
        }),
    )
}

/// The spans that the production has on stacks, by attribute and child.
pub(super) fn held_by(
    alloc: Global,
    figures: &Figures,
    plans: &[AttributePlan],
    bounded: &Bounded,
) -> Result<Vec<StackSpan>, AllocError>
    ensures { IfOk result (λ v. map stack_span_of v.items ≡ Tables.stack_spans (scheme_of figures.now.scheme.now) (map (λ a. letter_of a.letter) plans.now) (bounded_of bounded.now)) }
{
    // a `for`: each figure's spans are appended, and may want for memory; the plans stand in a row beside the attributes, which are the scheme's own
    let mut held = Vec::new(alloc);
    let attributes = figures.scheme.grammar().attributes.iter();
    for (number, (attribute, plan)) in attributes.zip(plans).enumerate() {
        let figure = figures.figure(number, *attribute);
        add_figure(alloc, &mut held, bounded, &figure, plan.letter)?;
    }
    Ok(held)
}
