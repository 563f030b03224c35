//! The broker: drafts are asked for, promises are held, taken, given up or left to lapse, over any resource.
#![tactic(auto)]

pub use call::{Answer, Call, Units};
pub use desk::Broker;
pub use draft::Draft;
pub use no_room::NoRoom;

mod asking;
mod bundles;
mod call;
mod desk;
mod draft;
mod held;
mod holding;
mod no_room;
