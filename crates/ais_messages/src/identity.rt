//! The identities of ships.
ghost use Rattle.std.specs.Prelude.{◌≡◌, ◌↔◌, IsTrue};
ghost use Rattle.ais_messages.specs.ShipIdentities.{is_ship, IsShip};

/// Returns whether an MMSI is a ship's: its first three digits are a country code, from 200 to 799.
pub fn is_ship(mmsi: u32) -> bool
    ensures ship { IsTrue result ↔ IsShip mmsi }
    ensures test { result ≡ is_ship mmsi }
{
    matches!(mmsi, 200000000..=799999999)
}
