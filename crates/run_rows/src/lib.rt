//! Worked rows of whole runs of the program, in memory: the report of each mode, rechecks of rows, runs that a slow
//! program would not finish, and runs that end in a fault: each fault by its number, limits for many vessels, hostile
//! lines, and failing devices. Before these what leads to a report: words, lines that come in pieces, and sessions.
#![tactic(auto)]

#[cfg(test)]
mod checked_rows;
#[cfg(test)]
mod crowds;
#[cfg(test)]
mod demanding;
#[cfg(test)]
mod ended_lines;
#[cfg(test)]
mod failing_devices;
#[cfg(test)]
mod hostile_lines;
#[cfg(test)]
mod logs;
#[cfg(test)]
mod open_lines;
#[cfg(test)]
mod pieces;
#[cfg(test)]
mod refusals;
#[cfg(test)]
mod reports;
#[cfg(test)]
mod whole_run;
#[cfg(test)]
mod words;
#[cfg(test)]
mod worked_row;
