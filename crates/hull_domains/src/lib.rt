//! Domains of six sides that turn with a vessel, and whether own ship is inside one at some rational instant of a step.
//!
//! A shape has six vertices, each a whole number of metres forward of the vessel and to starboard of her, clockwise
//! about her. A vessel keeps more room ahead of her than abeam; a single circle as the safe distance (COLREGs, Rule
//! 8(d)) cannot express this. A step is that of own ship and the other vessel, as in `closest_approach`, and an instant
//! of it is inside a shape if own ship is strictly inside each edge, as the other heads at the step's first tick. No
//! function takes memory.
//!
//! The shape `(300, 0) (150, 100) (-150, 100) (-300, 0) (-150, -100) (150, -100)` about a vessel that heads north is entered by none who keeps 100 m to the
//! east of her, since she runs along an edge, and by whoever keeps 99 m.
#![tactic(auto)]

mod entering;
mod shape;
mod sides;

pub use entering::{enters, inside, keeps_clear, radius_about};
pub use shape::Shape;
