//! Who is in force: the placing search on plain rank numbers.

#![tactic(auto)]

pub mod board;
mod calls;
mod lawful;
pub mod laws;
mod passes;
mod pile;
pub mod rules;
mod search;
mod showing;
