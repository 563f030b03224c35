use super::Quantity;
use crate::Goods;
use claims::{Cause, Claim, ClaimKey, Claims, Demand, ItemNumber, Party};
use std::alloc::AllocError;

pub(crate) fn demand(first: u32) -> Demand {
    Demand {
        shelf: 1,
        first,
        second: 0,
    }
}

// Whether a second claim finds goods, asked through the bound, as any goods are.
pub(crate) fn suffice_for<G: Goods>(goods: &G, claims: &Claims, first: u32) -> bool {
    let second = Claim::waiting(ClaimKey(2), Party(1), demand(first));
    goods.suffice_with(claims, second)
}

// Six buggies of which five are promised: the claims say so, though none of them has been noted.
#[test]
fn claims_are_weighed(rt: HostRuntime) -> Result<(), AllocError> {
    let six = Quantity { size: 6, used: 0 };
    let mut claims = Claims::new(rt.alloc())?;
    assert!(rt; suffice_for(&six, &claims, 6));
    let _ = claims.insert(Claim::waiting(ClaimKey(1), Party(1), demand(5)));
    assert!(rt; suffice_for(&six, &claims, 1));
    assert!(rt; !suffice_for(&six, &claims, 2));
    Ok(())
}

// What a demand means to a pool.
#[test]
fn quantities_are_read(rt: HostRuntime) {
    let six = Quantity { size: 6, used: 0 };
    assert!(rt; six.is_formed(demand(60_000)));
    assert!(rt; !six.is_formed(demand(60_001)));
    assert!(rt; six.amount(demand(5)) == 5);
    assert!(rt; matches!(six.unit(demand(5)), ItemNumber(0)));
    assert!(rt; matches!(six.shortage(), Cause::PoolShort));
}
