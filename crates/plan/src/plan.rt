//! A plan: where each attribute's figures live, and what a walk has to know of each step.
use super::letter::Letter;
use super::span::Sections;
use super::tables::ProductionTable;

mod agreement;
mod settling;
mod text;

pub use agreement::one_plan;

/// What a plan says of an attribute: where its figures live, and in which sections of its symbol they are given and read.
#[derive(Clone, Copy)]
pub struct AttributePlan {
    pub letter: Letter,
    pub sections: Sections,
}

#[derive(Drop)]
pub struct Plan {
    /// for each attribute in turn
    pub attributes: Vec<AttributePlan>,
    /// for each production in turn
    pub productions: Vec<ProductionTable>,
    /// the most spans that one production has on stacks at once
    pub widest: usize,
}
