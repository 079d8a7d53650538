//! Lives that end: at their last use, or, where no step reads them, as they arrive.
ghost use Rattle.model.specs.Lists.{any, keep};
ghost use Rattle.model.specs.Loose.{of_visit, distinct};
ghost use Rattle.model.specs.Sequences as Sequences;
ghost use Rattle.model.specs.Sequences.{last_use, unused};
ghost use Rattle.model.specs.Tape.{unused_events, end_events};
ghost use Rattle.grammar.specs.Views.{side_of, step_of, attribute_of, occurrence_of, production_of, scheme_in, production_in};
ghost use Rattle.lives.specs.Writing.{Written, arriving};
ghost use Rattle.std.specs.Prelude.{◌≡◌, map};

use super::event::Event;
use super::tape::Tape;
use grammar::{Attribute, Occurrence, Production, Scope, Side, Step};
use std::alloc::AllocError;

/// What arrives at a position of a production at once: the attributes of the symbol there, on a side, for a visit.
/// The visit's number may be one more than a LEAVE's, which a VisitNumber need not have room for.
#[derive(Clone, Copy)]
pub struct Arrival {
    pub position: usize,
    pub symbol: usize,
    pub side: Side,
    pub visit: usize,
}

impl Arrival {
    // Whether the attribute is one of them.
    fn brings(self, a: Attribute) -> bool
        ensures { result ≡ arriving self.symbol (side_of self.side) self.visit (attribute_of a) }
    {
        a.symbol == self.symbol && a.side == self.side && usize::from(a.visit) == self.visit
    }
}

// Whether one of the steps, of that production, reads the occurrence.
fn is_read(p: &Production, steps: &[Step], o: Occurrence) -> bool
    ensures { result ≡ any (λ st. Sequences.uses (production_of p.now) st (occurrence_of o)) (map step_of steps.now) }
{
    steps.iter().any(|step| p.reads(*step, o))
}

// Whether step t reads the occurrence, and no later step does. A production and the place of its step go together through four functions, here and
// in tape.rt: a struct of the two would be made at each step and taken apart in each of them.
fn is_last_use(p: &Production, t: usize, o: Occurrence) -> bool
    ensures { result ≡ last_use (production_of p.now) t (occurrence_of o) }
{
    match p.steps.get(t..) {
        Some([step, later @ ..]) => p.reads(*step, o) && !is_read(p, later, o),
        // past the last step nothing is read
        _ => false,
    }
}

// Whether no step of the production reads the occurrence.
fn is_unused(p: &Production, o: Occurrence) -> bool
    ensures { result ≡ unused (production_of p.now) (occurrence_of o) }
{
    !is_read(p, &p.steps, o)
}

impl Tape {
    /// Of the lives that arrive, those that no step reads end.
    pub(crate) fn end_unused(
        &mut self,
        scope: &Scope<'_>,
        arrival: Arrival,
    ) -> Result<(), AllocError>
        ensures { Written result self.old self.new (unused_events (production_in scope.now) arrival.position (of_visit (scheme_in scope.now) arrival.symbol (side_of arrival.side) arrival.visit)) }
    {
        let position = arrival.position;
        for (attribute, a) in scope.grammar.attributes.iter().enumerate() {
            let o = Occurrence {
                position,
                attribute,
            };
            if arrival.brings(*a) && is_unused(scope.production, o) {
                self.events.push(Event::Ends(attribute))?;
            }
        }
        Ok(())
    }

    /// Of the arguments of step t, each life that is read there for the last time ends once.
    pub(crate) fn end_arguments(
        &mut self,
        p: &Production,
        t: usize,
        arguments: &[Occurrence],
    ) -> Result<(), AllocError>
        ensures { Written result self.old self.new (end_events (keep (last_use (production_of p.now) t) (distinct (map occurrence_of arguments.now)))) }
    {
        for (k, o) in arguments.iter().enumerate() {
            if !o.is_among(&arguments[k + 1..]) && is_last_use(p, t, *o) {
                self.events.push(Event::Ends(o.attribute))?;
            }
        }
        Ok(())
    }
}
