//! Where among its steps a production first visits a child, first gives a value and last reads one.
ghost use Rattle.std.specs.Prelude.{◌≡◌, ◌≤◌, max, length};
ghost use Rattle.model.specs.Lawful.{is_visit};
ghost use Rattle.model.specs.Lists.{places};
ghost use Rattle.model.specs.Sequences.{uses, defines};
ghost use Rattle.model.specs.Spans.{last_of, place_of};
ghost use Rattle.grammar.specs.Views.{visit_of, occurrence_of, production_of, step_of};

use grammar::{ChildNumber, Occurrence, Production, Step, VisitNumber};

// The first step that passes the test; 0 where there is none, as the definitions have it.
fn first_place<F: Fn(Step) -> bool>(p: &Production, passes: F) -> usize
    requires { F.IsAlwaysCallable passes }
    ensures value { (f : _) → ((st : _) (b : _) → F.post passes st b → b ≡ f (step_of st)) → result ≡ place_of (production_of p.now) f }
    ensures bound { result ≤ length p.now.steps.items }
{
    p.steps.iter().position(|step| passes(*step)).unwrap_or(0)
}

/// The first step that visits the child for that visit, or 0.
pub(super) fn first_visit(p: &Production, child: ChildNumber, visit: VisitNumber) -> usize
    ensures value { result ≡ place_of (production_of p.now) (is_visit child.0 (visit_of visit)) }
    ensures bound { result ≤ length p.now.steps.items }
{
    first_place(p, |step| step.visits(usize::from(child), visit))
}

/// The first step that gives the occurrence its value, or 0.
pub(super) fn first_giving(p: &Production, o: Occurrence) -> usize
    ensures value { result ≡ place_of (production_of p.now) (λ st. defines (production_of p.now) st (occurrence_of o)) }
    ensures bound { result ≤ length p.now.steps.items }
{
    first_place(p, |step| p.gives(step, o))
}

/// The last step that reads the occurrence, or the given one.
pub(super) fn last_reading(p: &Production, o: Occurrence, otherwise: usize) -> usize
    ensures value { result ≡ last_of otherwise (places (λ st. uses (production_of p.now) st (occurrence_of o)) 0 (production_of p.now).steps) }
    ensures bound { result ≤ max otherwise (length p.now.steps.items) }
{
    p.steps
        .iter()
        .rposition(|step| p.reads(*step, o))
        .unwrap_or(otherwise)
}
