//! A production within the limits of a scheme.
ghost use Rattle.grammar.specs.Views.{production_of};
ghost use Rattle.plan.specs.Placed.{Placed, Placed-prop};
ghost use Rattle.std.specs.Prelude.{◌≤◌, length};

use grammar::Production;

/// It has at most 64 steps and six children, and no occurrence of its rules is past the sixth child.
#[derive(Clone, Copy)]
pub(crate) struct Bounded<'s> {
    pub production: &'s Production,
    ghost few_steps: { length production.now.steps.items ≤ 64 },
    ghost few_children: { length production.now.children.items ≤ 6 },
    ghost placed: { Placed (production_of production.now) } by { Placed-prop (production_of production.now) },
}
