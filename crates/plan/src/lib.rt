//! A plan: which figures of a scheme share a single cell, live on a stack or stay in the tree.
#![tactic(auto)]

mod bounded;
mod figures;
mod letter;
mod letters;
mod plan;
mod sections;
mod span;
mod stacking;
mod tables;
mod trials;

pub use letter::Letter;
pub use plan::{AttributePlan, Plan, one_plan};
pub use span::Sections;
pub use tables::{ProductionTable, StepTable};
