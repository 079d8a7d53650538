//! A production of a scheme, with the spans that it has on stacks.
use super::StackSpan;
use crate::bounded::Bounded;
use crate::figures::Figures;

#[derive(Drop)]
pub(super) struct Layout<'s> {
    pub figures: Figures<'s>,
    pub bounded: Bounded<'s>,
    pub held: Vec<StackSpan>,
}
