//! The bottom kinds of goods, each on a shelf of its own: a pool of like units, and goods that are asked for by number.
#![tactic(auto)]

pub use items::{Items, Named};
pub use kind::Goods;
pub use noting::NotingGoods;
pub use quantity::{Pool, Quantity};
pub use stock::Stock;

mod items;
mod kind;
mod noting;
mod quantity;
mod stock;

/// As many goods as may be named: the last item. It is a number to compare items with, where the one of crate `claims`
/// is a length; a `TryFrom` between them is not for a constant.
pub const MOST_GOODS: u32 = claims::MOST_GOODS as u32;
