//! Worked rows of the lines of a log: sources and sinks, sentences, messages, the book of vessels, and their ranks.
#![tactic(auto)]

#[cfg(test)]
mod books;
#[cfg(test)]
mod compared;
#[cfg(test)]
mod devices;
#[cfg(test)]
mod messages;
#[cfg(test)]
mod sentences;
#[cfg(test)]
mod vessel_ranks;
