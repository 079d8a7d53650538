//! A scheme: a grammar of which every rule holds, or a refusal by number.
#![tactic(auto)]

mod checks;
mod scheme;

pub use scheme::{Scheme, one_answer};
