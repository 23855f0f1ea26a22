//! Bringing the figures up to date, written once for every calculator.

#![tactic(auto)]

pub mod blanks;
pub mod laws;
pub mod update;
pub mod ways;
