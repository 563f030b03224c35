use crate::{BATH, Listed, Room, SHOWER, VIEW};
use claims::{ClaimKey, Demand, ItemNumber, Party};
use resource::Resource;
use std::alloc::AllocError;

fn wanted(features: u8) -> Demand {
    Demand {
        shelf: 1,
        first: u32::from(features),
        second: 0,
    }
}

// The first guest goes out with the second room, for the second guest wants the bath, which the first room alone has.
#[test]
fn a_guest_leaves_the_bath(rt: HostRuntime) -> Result<(), AllocError> {
    let heap = rt.alloc();
    let mut rooms = Vec::new(heap);
    rooms.push(Room {
        features: BATH + VIEW,
    })?;
    rooms.push(Room {
        features: SHOWER + VIEW,
    })?;
    let mut list = Listed::new(heap, 1, rooms)?;
    assert!(rt; list.place(ClaimKey(1), Party(1), wanted(VIEW)).is_ok());
    assert!(rt; list.place(ClaimKey(2), Party(2), wanted(BATH)).is_ok());
    assert!(rt; list.place(ClaimKey(3), Party(3), wanted(VIEW)).is_err());
    assert!(rt; matches!(list.draw(ClaimKey(1)), Ok(ItemNumber(2))));
    assert!(rt; list.lift(ClaimKey(1)).is_ok());
    assert!(rt; list.place(ClaimKey(3), Party(3), wanted(SHOWER)).is_ok());
    assert!(rt; list.count() == 2);
    Ok(())
}
