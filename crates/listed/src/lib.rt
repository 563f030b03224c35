//! Goods on a list, of which a demand wants any one that suits it: rooms by features, tee places by a span of minutes.
#![tactic(auto)]

pub use list::Listed;
pub use matching::{
    ALL_FEATURES, BATH, DOGS, GROUND_FLOOR, LAST_MINUTE, QUIET_WING, Room, SHOWER, SUITE,
    TWIN_BEDS, TeePlace, VIEW,
};

mod list;
mod lots;
#[cfg(test)]
mod tests;
