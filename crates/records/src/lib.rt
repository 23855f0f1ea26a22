//! Rule records as they are handed in, a sheet's own copy of a rule, and why a call is refused.

#![tactic(auto)]

pub mod making;
pub mod record;
pub mod refusal;
pub mod row;
