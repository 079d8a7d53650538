//! Whether a grammar keeps the rules on its symbols and productions.
mod evaluated;
mod judge;
mod marks;
mod ordered;
mod root;
mod ruled;
mod sequenced;
mod spread;

pub(crate) use judge::judge_scheme;
