//! The order in which the rules in force are worked out, and the rules that cannot be.

#![tactic(auto)]

pub mod flows;
pub mod laws;
pub mod plan;
pub mod rule_list;
