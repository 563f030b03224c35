//! Goods that are not alike: each claim wants one that suits it.
#![tactic(auto)]

pub use admission::admit;
pub use claims::MOST_GOODS;
pub use room::{
    ALL_FEATURES, BATH, DOGS, GROUND_FLOOR, QUIET_WING, Room, SHOWER, SUITE, TWIN_BEDS, VIEW,
};
pub use suits::Suits;
pub use tee::{LAST_MINUTE, TeePlace};

mod admission;
mod reach;
mod room;
mod sheet;
mod suits;
mod tee;
#[cfg(test)]
mod tests;
mod way;
