//! Worked cases, run on the compiled code.

#![tactic(auto)]

#[cfg(test)]
mod figures_cases;
#[cfg(test)]
mod placing_cases;
#[cfg(test)]
mod planning_cases;
#[cfg(test)]
mod rank_cases;
#[cfg(test)]
mod record_cases;
