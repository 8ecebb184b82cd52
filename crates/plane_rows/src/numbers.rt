//! The numbers of all worked rows of meetings.
use encounters::{Act, Detect};
use sectors::Angles;

/// A watch of 5,000 m, a risk within 500 m and 60 steps, and past and clear at 1,000 m.
pub const DETECT: Detect = Detect {
    watch: 50_000_000,
    risk: 5_000_000,
    clear: 10_000_000,
    horizon: 60,
    angles: Angles {
        doubt: 0,
        ahead: 100,
        reciprocal: 100,
    },
};

/// A turn of 20 degrees or a change of 5 knots is readily apparent; one of 5 degrees or 1 knot is no alteration.
pub const ACT: Act = Act {
    steady_turn: 50,
    apparent_turn: 200,
    steady_speed: 10,
    apparent_speed: 50,
};
