//! Worked rows of an audit: stretches, traces, whole audits, and the texts of their rows.
#![tactic(auto)]

#[cfg(test)]
mod alarms;
#[cfg(test)]
mod audits;
#[cfg(test)]
mod beginnings;
#[cfg(test)]
mod compared;
#[cfg(test)]
mod contacts;
#[cfg(test)]
mod marks;
#[cfg(test)]
mod queues;
#[cfg(test)]
mod ranked;
#[cfg(test)]
mod row_counter;
#[cfg(test)]
mod row_texts;
#[cfg(test)]
mod stretches;
#[cfg(test)]
mod trace_marks;
