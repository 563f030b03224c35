//! Rooms, and the features that a room may have, each with its number: a set of them is the sum of their numbers, since a
//! demand gives it as a number.
ghost use Rattle.matching.specs.Rooms.{room_suits, room_formed};

use crate::suits::Suits;
use claims::Demand;

/// A bath.
pub const BATH: u8 = 1;

/// A shower.
pub const SHOWER: u8 = 2;

/// Twin beds.
pub const TWIN_BEDS: u8 = 4;

/// On the ground floor.
pub const GROUND_FLOOR: u8 = 8;

/// A view.
pub const VIEW: u8 = 16;

/// In the quiet wing.
pub const QUIET_WING: u8 = 32;

/// Dogs may stay.
pub const DOGS: u8 = 64;

/// A suite.
pub const SUITE: u8 = 128;

/// The set of all features.
pub const ALL_FEATURES: u8 = BATH
    | SHOWER
    | TWIN_BEDS
    | GROUND_FLOOR
    | VIEW
    | QUIET_WING
    | DOGS
    | SUITE;

/// A room, with the set of its features.
#[derive(Clone, Copy)]
pub struct Room {
    pub features: u8,
}

// A demand for a room gives the set wanted and the set forbidden.
impl Suits for Room {
    ghost suiting = { room_suits };

    ghost formed = { room_formed };

    fn suits(&self, demand: Demand) -> bool {
        let features = u32::from(self.features);
        demand.first & features == demand.first && demand.second & features == 0
    }

    fn is_formed(demand: Demand) -> bool {
        let all = u32::from(ALL_FEATURES);
        demand.first <= all && demand.second <= all
    }
}
