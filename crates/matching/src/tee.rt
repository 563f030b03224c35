ghost use Rattle.matching.specs.TeePlaces.{tee_suits, tee_formed};

use crate::suits::Suits;
use claims::Demand;

/// The last minute of the week: no span ends later.
pub const LAST_MINUTE: u32 = 10079;

/// A place at the first tee, at its minute.
#[derive(Clone, Copy)]
pub struct TeePlace {
    pub minute: u32,
}

// A demand for a tee place gives the earliest and the latest minute.
impl Suits for TeePlace {
    ghost suiting = { tee_suits };

    ghost formed = { tee_formed };

    fn suits(&self, demand: Demand) -> bool {
        (demand.first..=demand.second).contains(&self.minute)
    }

    fn is_formed(demand: Demand) -> bool {
        demand.first <= demand.second && demand.second <= LAST_MINUTE
    }
}
