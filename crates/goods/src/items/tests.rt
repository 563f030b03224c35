use super::Items;
use crate::Goods;
use crate::quantity::tests::{demand, suffice_for};
use claims::{Cause, Claim, ClaimKey, Claims, ItemNumber, Party};
use std::alloc::AllocError;

// Four tables of which the second is promised.
#[test]
fn a_table_is_promised_once(rt: HostRuntime) -> Result<(), AllocError> {
    let four = Items { count: 4 };
    let mut claims = Claims::new(rt.alloc())?;
    let _ = claims.insert(Claim::waiting(ClaimKey(1), Party(1), demand(2)));
    assert!(rt; suffice_for(&four, &claims, 4));
    assert!(rt; !suffice_for(&four, &claims, 2));
    assert!(rt; !suffice_for(&four, &claims, 5));
    Ok(())
}

// What a demand means to named goods.
#[test]
fn tables_are_read(rt: HostRuntime) {
    let four = Items { count: 4 };
    assert!(rt; four.is_formed(demand(256)));
    assert!(rt; !four.is_formed(demand(257)));
    assert!(rt; four.amount(demand(3)) == 1);
    assert!(rt; matches!(four.unit(demand(3)), ItemNumber(3)));
    assert!(rt; matches!(four.shortage(), Cause::ItemTaken));
}
