//! The calculators of the mill: quantities and cards.

#![tactic(auto)]

pub mod cards;
mod forms;
pub mod laws;
pub mod quantities;

pub use forms::{Form, WAYS};

#[cfg(test)]
mod tests;
