//! What a walk has to know of each step: which stacks it pushes and pops, and how deep its arguments and its target lie.
use super::span::Span;

mod changes;
mod depth;
mod held;
mod layout;
mod production;
mod step;
mod width;

pub(crate) use production::tabulate;
pub(crate) use width::widest_of;

/// A span on the stack of an attribute.
#[derive(Clone, Copy)]
pub struct StackSpan {
    pub attribute: usize,
    pub span: Span,
}

/// What a walk has to know of a step.
#[derive(Drop)]
pub struct StepTable {
    /// the attributes on whose stacks a span opens here, one for each span, rising
    pub opens: Vec<usize>,
    /// those on whose stacks a span closes
    pub closes: Vec<usize>,
    /// of an EVAL: how many spans lie above each argument on its attribute's stack, before it; of another step none, as the definition of tables has it
    pub arguments: Vec<usize>,
    /// of an EVAL: how many lie above the target, after it; of another step 0
    pub target: usize,
}

#[derive(Drop)]
pub struct ProductionTable {
    /// for each step in turn
    pub steps: Vec<StepTable>,
    /// the most spans that the production has on stacks at once
    pub width: usize,
}
