//! The stacks that a step pushes and pops.
ghost use Rattle.model.specs.Lists.{keep};
ghost use Rattle.model.specs.Tables.{names};
ghost use Rattle.plan.specs.Views.{stack_span_of};
ghost use Rattle.std.specs.Prelude.{◌≡◌, map, IfOk};

use super::StackSpan;
use std::alloc::{AllocError, Global};

/// The attributes of the spans that pass the test, one for each span.
pub(super) fn attributes_of<F: Fn(&StackSpan) -> bool>(
    alloc: Global,
    held: &[StackSpan],
    passes: F,
) -> Result<Vec<usize>, AllocError>
    requires { F.IsAlwaysCallable passes }
    ensures { (f : _) → ((h : _) (b : _) → F.post passes h b → b ≡ f (stack_span_of h.now)) → IfOk result (λ v. v.items ≡ names (keep f (map stack_span_of held.now))) }
{
    // asked first, as in `width.rt`
    if held.is_empty() {
        return Ok(Vec::new(alloc));
    }
    held.iter()
        .filter(|h| passes(*h))
        .map(|h| h.attribute)
        .collect(alloc)
}
