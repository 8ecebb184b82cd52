//! A book's data of one vessel.
use crate::accepted::Accepted;
use crate::counts::Counts;
use crate::statics::Statics;
use motion::Legs;

/// A vessel of a book, with all her stored data.
#[derive(Clone, Copy)]
pub struct HeldVessel<'a> {
    /// Her MMSI.
    pub mmsi: u32,
    /// Her stored accepted reports, in the order of arrival.
    pub points: &'a [Accepted],
    /// The stored legs between them.
    pub legs: &'a Legs,
    /// The numbers of her reports and legs, including forgotten ones.
    pub counts: Counts,
    /// Her static data.
    pub statics: &'a Statics,
}
