//! The fixed-point plane in which vessels move: its points and their products, the compass, and the bearings.
//!
//! A component is a count of tenths of a millimetre, `x` to the east and `y` to the north. An angle is a count of
//! tenths of a degree clockwise from north. Places, courses and speeds have the units of ITU-R M.1371-5, Annex 8,
//! section 3.1: ten thousandths of a minute, tenths of a degree, tenths of a knot. The plane and the compass are this
//! project's own. All values are exact whole numbers. No function takes memory.
//!
//! About the reference at 60 degrees north on the meridian of Greenwich, the place a tenth of a minute further east has the
//! point `(926000, 0)`, which is 92.6 metres: `project` of latitude 36,000,000 and longitude 1000. A vessel on course 300, which
//! is 30 degrees, at speed 180, which is 18 knots, moves by `(46300, 80194)` in a second.
#![tactic(auto)]

mod bearings;
mod compass;
mod point;
mod projection;
mod rounding;
mod velocities;

pub use bearings::{bearing, relative, swing, to_port};
pub use compass::unit;
pub use point::{Point, displacement, dot, isqrt, norm2, square, turn, within};
pub use projection::{REGION_SIZE, Reference, project};
pub use rounding::round_quotient;
pub use velocities::{GREATEST_VELOCITY, velocity};
