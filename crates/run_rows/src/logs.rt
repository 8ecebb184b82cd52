//! Logs, reports and parts of scenarios that several modules of rows share.
use crate::whole_run::Edit;

/// A report one minute of latitude from the reference of [`ABOUT_SEATTLE`].
pub const LOG: &[u8] = b"!AIVDM,1,1,,B,177KQJ5000G?tO`K>RA1wUbN0TKH,0*5C\n";

pub const ABOUT_SEATTLE: Edit = ("lat = 0\nlon = 0", "lat = 28549600\nlon = -73407500");

/// The whole report of `points` on that log.
pub const REPORT: &[u8] = b"point,477553000,1700000000,0,185200,0,510
lines,empty,0,,,,
lines,long,0,,,,
lines,tag,0,,,,
lines,other,0,,,,
lines,form,0,,,,
lines,sum,0,,,,
lines,armour,0,,,,
lines,outside,0,,,,
lines,late,0,,,,
lines,part,0,,,,
lines,orphan,0,,,,
lines,short,0,,,,
lines,kind,0,,,,
lines,notship,0,,,,
lines,nopos,0,,,,
lines,far,0,,,,
lines,back,0,,,,
lines,repeat,0,,,,
lines,jump,0,,,,
lines,static,0,,,,
lines,point,1,,,,
";

/// A window of one tick.
pub const ONE_TICK: Edit = ("ticks = 40", "ticks = 1");

/// Now is one tick after the start, and she may keep her course, or turn to starboard by 30 or 60 degrees.
pub const OWN: Edit = (
    "max_speed = 500\n",
    "max_speed = 500\n[own]\nmmsi = 369190000\ncourses = [0, 300, 600]\nspeeds = [0]\nlegs = 1\nleg_ticks = 30\ntail = 10\nbase = 300\nlengths = 0\nrange = 50000\n",
);

/// Own ship may only keep course and speed.
pub const ONE_COURSE: Edit = ("[0, 300, 600]", "[0]");

/// Own ship and a vessel that she meets head-on, each with a report at now.
pub const HEAD_ON_NOW: &[u8] = b"\\c:1700000000*5F\\!AIVDM,1,1,,A,15P5TL0P2l00001wwHt000000000,0*5C
\\c:1700000000*5F\\!AIVDM,1,1,,A,177KQJ0P2lOwwtp00W4725`00000,0*31
";
