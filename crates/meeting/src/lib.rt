//! The goods of one open meeting, and the broker that promises them.
#![tactic(auto)]

ghost use Rattle.std.specs.Prelude.{◌≡◌, IfOk};
ghost use Rattle.meeting.specs.Stock.{Stocked, Opens};

use broker::Broker;
use claims::PromiseNumber;
use compound::{Bank, PARTIES, Quota};
use goods::{Named, Pool};
use std::alloc::{AllocError, Global};

/// Buggies and dining tables, under one quota.
pub type Stock = Quota<Bank<Pool, Named>>;

/// Where the buggies are.
pub const BUGGY_SHELF: u32 = 1;

/// How many buggies there are.
pub const BUGGIES: u32 = 6;

/// Where the dining tables are.
pub const TABLE_SHELF: u32 = 2;

/// How many dining tables there are.
pub const TABLES: u32 = 4;

/// How many units each party may have.
pub const UNITS_EACH: u32 = 8;

/// The number of the first promise.
pub const FIRST_NUMBER: u32 = 1;

/// The meeting's goods, with no claims.
pub fn open_stock(heap: Global) -> Result<Stock, AllocError>
    ensures { IfOk result Stocked }
{
    let buggies = Pool::new(heap, BUGGY_SHELF, BUGGIES)?;
    let tables = Named::new(heap, TABLE_SHELF, TABLES)?;
    let goods = Bank::new(buggies, tables, BUGGY_SHELF);
    Ok(Quota::new(goods, [UNITS_EACH; PARTIES]))
}

/// The broker over the meeting's goods, with no promises.
pub fn open_meeting(heap: Global) -> Result<Broker<Stock>, AllocError>
    ensures { IfOk result Opens }
{
    let stock = open_stock(heap)?;
    Ok(Broker::new(heap, stock, PromiseNumber(FIRST_NUMBER))?)
}
