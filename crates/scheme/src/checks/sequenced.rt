//! A production's visits of each child and its leaves come each once and rising, and the last step is a LEAVE.
ghost use Rattle.std.specs.Prelude.{◌≡◌, map, reverse, take, Decides};
ghost use Rattle.model.specs.Lawful.{Sequenced};
ghost use Rattle.model.specs.Lists.{count, from_on};
ghost use Rattle.model.specs.Sequences.{is_leave};
ghost use Rattle.scheme.specs.Numbers.{number_at, numbers, InSequence};
ghost use Rattle.grammar.specs.Views.{option_of, same, scheme_in, production_in, step_of, visit_of};

use grammar::{Scope, Step, VisitNumber};

pub(super) fn is_sequenced(scope: &Scope<'_>) -> bool
    ensures { Decides result (Sequenced (scheme_in scope.now) (production_in scope.now)) }
{
    let p = scope.production;
    // The positions are counted: each is asked about, also position 0, which is no child.
    ends_with_leave(&p.steps) && (0..=p.children.len()).all(|k| is_in_sequence(scope, k))
}

// The steps' numbers at a position are those of its symbol's visits.
fn is_in_sequence(scope: &Scope<'_>, position: usize) -> bool
    ensures { Decides result (InSequence (scheme_in scope.now) (production_in scope.now) position) }
{
    scope
        .production
        .symbol_at(position)
        .and_then(|symbol| scope.grammar.last_visit(symbol))
        .is_none_or(|last| rises_to(&scope.production.steps, position, last))
}

// The steps' numbers at a position are those from 1 to the last.
fn rises_to(steps: &[Step], position: usize, last: VisitNumber) -> bool
    ensures { Decides result (numbers position (map step_of steps.now) ≡ from_on 1 (visit_of last)) }
{
    steps
        .iter()
        .filter_map(|step| number_at(*step, position))
        .eq(1..=last.0)
}

// The number of the step at a position, to be compared with those of a range: a LEAVE has one at the left symbol, a VISIT at its child.
fn number_at(step: Step, position: usize) -> Option<u8>
    ensures { option_of same result ≡ number_at position (step_of step) }
{
    match step {
        Step::Visit(child, number) if position > 0 && position == usize::from(child) => {
            Some(number.0)
        }
        Step::Leave(number) if position == 0 => Some(number.0),
        _ => None,
    }
}

fn ends_with_leave(steps: &[Step]) -> bool
    ensures { Decides result (count is_leave (take 1 (reverse (map step_of steps.now))) ≡ 1) }
{
    steps.last().is_some_and(|step| step.is_leave())
}
