//! Worked rows on the plane: the compass, legs, encounters of two vessels, and plans.
#![tactic(auto)]

#[cfg(test)]
mod approach;
#[cfg(test)]
mod classes;
#[cfg(test)]
mod compared;
#[cfg(test)]
mod domains;
#[cfg(test)]
mod engagements;
#[cfg(test)]
mod geometry;
#[cfg(test)]
mod legs;
#[cfg(test)]
mod numbers;
#[cfg(test)]
mod plans;
#[cfg(test)]
mod traces;
