//! Worked situations, and the pruned search against the flat list. Also worked rows of the reasons why there is no
//! plan: the report, and the results of checks of rows.
#![tactic(auto)]

#[cfg(test)]
mod checked;
#[cfg(test)]
mod compared;
#[cfg(test)]
mod head_on;
#[cfg(test)]
mod reasons;
#[cfg(test)]
mod searches;
#[cfg(test)]
mod why;
#[cfg(test)]
mod why_texts;
