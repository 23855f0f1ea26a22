//! The sheet: the open one and the frozen one, every call and every question.

#![tactic(auto)]

pub mod answers;
pub mod sheet;
