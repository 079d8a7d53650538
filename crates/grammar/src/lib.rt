//! What a scheme is made of, and why one is refused.
#![tactic(auto)]

mod parts;
mod refusal;

pub use parts::{
    Attribute, ChildNumber, Grammar, Occurrence, Production, Rule, Scope, Side, Step, VisitNumber,
};
pub use refusal::{Refusal, lines_stand};
