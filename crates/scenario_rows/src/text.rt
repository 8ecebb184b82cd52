//! The scenario of the worked rows of all crates, and a log of two vessels. A row that needs another scenario replaces
//! a part of this one.

/// A window of 40 ticks of ten seconds, around the place at 0 north and 0 east.
pub const SCENARIO: &str = "version = 1
[window]
start = 1700000000
tick = 10
ticks = 40
[reference]
lat = 0
lon = 0
[detect]
watch = 5000
risk = 500
clear = 1000
horizon = 600
doubt = 0
ahead = 100
reciprocal = 100
[act]
steady_turn = 50
apparent_turn = 200
steady_speed = 10
apparent_speed = 50
[rules]
safe = 200
overtake = 200
close = 300
t8 = 60
ta = 60
tl = 20
tw = 100
te = 600
[log]
gap = 600
slack = 60
max_speed = 500
";

/// Two vessels that meet head-on, each with a report at the start and one 400 seconds later.
pub const HEAD_ON: &[u8] =
    b"\\c:1700000000*5F\\!AIVDM,2,1,3,B,55P5TL01VIaAL@7WKO@mBplU@<PDhh000000001S;AJ::4A80?4i@E53,0*3E
!AIVDM,2,2,3,B,1@0000000000000,2*55
\\c:1700000000*5F\\!AIVDM,1,1,,A,15P5TL0P2l00001wwHt000000000,0*5C
\\c:1700000000*5F\\!AIVDM,1,1,,A,177KQJ0P2lOwwtp00W4725`00000,0*31
\\c:1700000400*5B\\!AIVDM,1,1,,A,15P5TL0P2l0000000W4000000000,0*02
\\c:1700000400*5B\\!AIVDM,1,1,,A,177KQJ0P2lOwwtqwwHt725`00000,0*6F
";
