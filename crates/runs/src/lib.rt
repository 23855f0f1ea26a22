//! Runs: calls carried out on one sheet, and the law on what every run ends in.

#![tactic(auto)]

pub mod calls;
pub mod held;
