//! Worked rows of formulas, monitors and rules, and of early answers.
#![tactic(auto)]

#[cfg(test)]
mod compared;
#[cfg(test)]
mod early;
#[cfg(test)]
mod formulas;
#[cfg(test)]
mod monitors;
#[cfg(test)]
mod rows;
#[cfg(test)]
mod rules;
#[cfg(test)]
mod sweeps;
