//! Reads a grammar from words: each word in turn, refused by number where it gives cause.
#![tactic(auto)]

mod draft;
mod entries;
mod entry;
mod form;
mod kind;
mod part;

pub use draft::read_grammar;
