//! Lives of attributes along a scheme's productions, and whether those of some attributes alternate.
#![tactic(auto)]

mod cells;
mod event;
mod head;
mod lives;
mod play;
mod table;
mod tape;
mod uses;

pub use lives::Lives;
