//! Checks without a search whether the rows of a text give the right reasons why there is no plan.
//!
//! The text is CSV without a header. Its rows `why` are the entries of a refutation, in order. The check skips rows of
//! other kinds, so the text may be the whole report of a plan. [`recheck`] returns whether the entries are right, and
//! otherwise the index of the first wrong one.
//!
//! If a right list of three lacks its second row, entry 1 is the first wrong one: its plans do not follow those before
//! it. Whether there is another plan is out of scope: the check judges only the rows.
#![tactic(auto)]

mod checked_text;
mod entries_read;
mod text_rows;

pub use checked_text::{GREATEST_TEXT, recheck};
