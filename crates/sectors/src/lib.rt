//! The class of an encounter of two vessels, by Rules 13 to 15 of the COLREGs 1972: overtaking, crossing and head-on.
//!
//! Angles are tenths of a degree clockwise, directions and bearings below 3600. The 22.5 degrees abaft the beam of Rule
//! 13 are 1125 from right ahead; the angles of doubt, of "nearly ahead" and of "nearly reciprocal" are the scenario's.
//! No function takes memory.
//!
//! If both head north with no doubt and `w` is `(0, -1000)`: B at `p` `(-1000000, 414214)` sees A at 1125, and A stands on in a
//! crossing; B at `(-1000000, 416300)` sees her at 1126, and A overtakes.
#![tactic(auto)]

mod angles;
mod class;

pub use angles::Angles;
pub use class::{Class, class_of};
