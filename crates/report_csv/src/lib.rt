//! The text of rows of fields as CSV (RFC 4180): fields between commas, quoted where they must be, and a line feed. The functions
//! give the digits of a field that is a number.
//!
//! The fields `why`, `3.4`, `200000001`, `r14a`, `23` and two empty ones are the row `why,3.4,200000001,r14a,23,,`. The rows
//! of a report and the meaning of their fields are out of scope: `audit_report` has them.
#![tactic(auto)]

mod numbers;

pub use numbers::{digits, optional_digits, short_digits, signed_digits};
