//! The situation of two vessels head-on, from a scenario and a log.
ghost use Rattle.std.specs.Prelude.{IfOk, IfSome};
ghost use Rattle.plan_situations.specs.Situations.{IsSituation};

use aivdm::SentenceRoom;
use log_lines::Judge;
use plan_situations::{Situation, prepare};
use scenario::read;
use scenario_rows::SCENARIO;
use std::alloc::Global;
use std::test::Fail;
use tracks::Keeping;

/// The text after the scenario of all worked rows: two additional rules, one of them also named `domain`, and one that
/// is already broken at now, at the step at which the meeting begins; and own ship with a tail of 10 ticks and a domain
/// of 300 metres, without her legs and courses.
const OWN_SHIP: &str = "[[formula]]
name = \"domain\"
text = \"!close(200)\"
[[formula]]
name = \"begun\"
text = \"!begin\"
[own]
mmsi = 369190000
speeds = [0]
tail = 10
base = 300
lengths = 0
range = 50000
";

const LOG: [&[u8]; 4] = [
    b"\\c:1700000000*5F\\!AIVDM,2,1,3,B,55P5TL01VIaAL@7WKO@mBplU@<PDhh000000001S;AJ::4A80?4i@E53,0*3E",
    b"!AIVDM,2,2,3,B,1@0000000000000,2*55",
    b"\\c:1700000000*5F\\!AIVDM,1,1,,A,15P5TL0P2l00001wwHt000000000,0*5C",
    b"\\c:1700000000*5F\\!AIVDM,1,1,,A,177KQJ0P2lOwwtp00W4725`00000,0*31",
];

/// Plans of one leg of 30 ticks.
pub const ONE_LEG: &str = "legs = 1
leg_ticks = 30
";

/// Returns the situation at the log's end, tick 1 of ten seconds each, with these legs and this list of courses.
pub fn situation_with(alloc: Global, legs: &str, courses: &str) -> Result<Option<Situation>, Fail>
    ensures { IfOk result (λ found. IfSome found IsSituation) }
{
    let window = SCENARIO.replace(alloc, "ticks = 40", "ticks = 1")?;
    let text = [window.as_str(), OWN_SHIP, legs, "courses = ", courses, "\n"].concat(alloc)?;
    let Ok(scenario) = read(alloc, text.as_bytes(), true) else {
        return Ok(None);
    };
    if scenario.own.is_none() {
        return Ok(None);
    }
    let mut judge = Judge::new(alloc, Keeping::Tracks, &scenario);
    let mut room = SentenceRoom::new();
    for k in 0..4_usize {
        judge.take(&mut room, LOG[k])?;
    }
    match prepare(alloc, scenario, judge.book()) {
        Ok(prepared) => Ok(Some(prepared.situation)),
        Err(_) => Ok(None),
    }
}
