//! How deep a value lies on the stack of its attribute. The bound on a position stands at three functions: a type for an occurrence within it would have to be made
//! anew of each argument of a rule.
ghost use Rattle.model.specs.Spans.{open_during};
ghost use Rattle.model.specs.Tables as Tables;
ghost use Rattle.plan.specs.Depths.{after, Floor};
ghost use Rattle.plan.specs.Layouts.{scheme_in, production_in, held_in};
ghost use Rattle.plan.specs.Views.{span_of};
ghost use Rattle.grammar.specs.Views.{occurrence_of};
ghost use Rattle.std.specs.Prelude.{◌≡◌, ◌≤◌, ◌&&◌, map, All, IfOk, ◌==◌};

use super::StackSpan;
use super::layout::Layout;
use crate::span::span_at;
use grammar::{ChildNumber, Occurrence};
use std::alloc::{AllocError, Global};

impl StackSpan {
    // It is one of the attribute, is open at the moment, and has opened after the floor.
    fn lies_above(&self, attribute: usize, floor: Option<usize>, moment: usize) -> bool
        ensures { result ≡ (self.now.attribute == attribute && (open_during moment (span_of self.now.span) && after floor self.now.span.opens)) }
    {
        self.attribute == attribute
            && self.span.is_open(moment)
            && floor.is_none_or(|opened| opened < self.span.opens)
    }
}

impl Layout<'_> {
    // The moment at which the occurrence's own span opens; none at the left symbol, whose value lies below all that the production has open.
    fn floor_of(&self, o: Occurrence) -> Option<usize>
        requires placed { o.position ≤ 6 }
        ensures { Floor (scheme_in self.now) (production_in self.now) (occurrence_of o) result }
    {
        if o.position == 0 {
            return None;
        }
        let attribute = self.figures.scheme.grammar().attribute(o.attribute)?;
        let figure = self.figures.figure(o.attribute, attribute);
        // at most 6, so it fits
        let child = ChildNumber(o.position as u8);
        Some(span_at(&self.bounded, &figure, child).opens)
    }

    /// How many of the spans lie above the occurrence on its attribute's stack at the moment.
    pub(super) fn depth_of(&self, moment: usize, o: Occurrence) -> usize
        requires placed { o.position ≤ 6 }
        ensures { result ≡ Tables.depth (scheme_in self.now) (production_in self.now) (held_in self.now) moment (occurrence_of o) }
    {
        let floor = self.floor_of(o);
        self.held
            .iter()
            .filter(|h| h.lies_above(o.attribute, floor, moment))
            .count()
    }

    /// The depths of the occurrences.
    pub(super) fn depths_of(
        &self,
        alloc: Global,
        moment: usize,
        occurrences: &[Occurrence],
    ) -> Result<Vec<usize>, AllocError>
        requires placed { All (λ o. o.position ≤ 6) occurrences.now }
        ensures { IfOk result (λ v. v.items ≡ map (Tables.depth (scheme_in self.now) (production_in self.now) (held_in self.now) moment) (map occurrence_of occurrences.now)) }
    {
        occurrences
            .iter()
            .map(|o| self.depth_of(moment, *o))
            .collect(alloc)
    }
}
