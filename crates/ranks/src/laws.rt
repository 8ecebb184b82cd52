//! A law of ranks, which follows from the definitions alone.
ghost use Rattle.std.specs.Prelude.{ℕ, ◌≡◌, ◌<◌, ◌++◌, ◌∷◌, [], List};
ghost use Rattle.ranks.specs.VesselRanks.{Note, rank_by_type};

/// A line changes no vessel's rank by ship type before the line's time.
pub fn the_past_stays()
    ensures { (noted : List Note) (note : Note) (mmsi time : ℕ) → time < note.time →
        rank_by_type (noted ++ note ∷ []) mmsi time ≡ rank_by_type noted mmsi time }
{}
