//! A ship's static data.
ghost use Rattle.std.specs.Prelude.{◌≡◌, ◌≤◌, IfSome};
ghost use Rattle.ais_messages.specs.MessageFields.{IsShipData};
ghost use Rattle.tracks.specs.Lengths.{length_of};

use ais_messages::{ShipData, Text20};

/// Returns her length in metres, from bow to stern; 0 if she sent none.
pub(crate) fn length_of(ship: Option<ShipData>) -> u32
    ensures value { result ≡ length_of ship }
    ensures short { IfSome ship IsShipData → result ≤ 1022 }
{
    match ship {
        Some(ship) => u32::from(ship.bow) + u32::from(ship.stern),
        None => 0,
    }
}

/// A ship's static data, each part from her last report of it.
#[derive(Debug, Drop, PartialEq)]
pub struct Statics {
    /// Her name, if she sent one.
    pub name: Option<Text20>,
    /// Her type and size, if she sent them.
    pub ship: Option<ShipData>,
}

impl Statics {
    /// Returns her length in metres, from bow to stern; 0 if she sent none.
    pub fn length(&self) -> u32
        ensures { result ≡ length_of self.now.ship }
    {
        length_of(self.ship)
    }
}
