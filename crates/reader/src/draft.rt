//! A scheme as far as it has been read. The production that is being read stands apart.
use grammar::{Grammar, Production};
use std::alloc::Global;

mod growth;
mod judge;
mod order;
mod reader;

pub use reader::read_grammar;

/// What may come next.
#[derive(Clone, Copy)]
pub enum Next {
    FirstSymbol,
    Symbols,
    /// how many children of the current production are still to come
    Children(usize),
    Rules,
    /// how many arguments of the current production's last rule are still to come
    Arguments(usize),
    Steps,
    /// the end word has been read
    Nothing,
}

#[derive(Drop)]
pub struct Draft {
    pub alloc: Global,
    pub whole: Grammar,
    /// No Option: `next` says whether a production has begun. Where none has, an empty one stands here, as in the model,
    /// and so each question that is asked of a word is answered in one way.
    pub current: Production,
    pub next: Next,
}
