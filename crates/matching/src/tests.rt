use crate::{BATH, Room, SHOWER, TeePlace, VIEW, admit};
use claims::{Claim, ClaimKey, ClaimState, Demand, ItemNumber, Party};

fn claim(first: u32, second: u32, state: ClaimState) -> Claim {
    let demand = Demand {
        shelf: 1,
        first,
        second,
    };
    Claim {
        key: ClaimKey(1),
        party: Party(1),
        demand,
        state,
    }
}

// The first guest moves on to the shower, for the second wants the bath.
#[test]
fn a_guest_moves(rt: HostRuntime) {
    let rooms = [
        Room {
            features: BATH + VIEW,
        },
        Room {
            features: SHOWER + VIEW,
        },
    ];
    let view = claim(u32::from(VIEW), 0, ClaimState::Waiting);
    let bath = claim(u32::from(BATH), 0, ClaimState::Waiting);
    let mut allotment = [0, 0];
    assert!(rt; admit(&rooms, &[view, bath], &mut allotment, 1));
    assert!(rt; allotment[0] == 1);
    assert!(rt; allotment[1] == 0);
}

// No room is left that has a bath, and nobody moves.
#[test]
fn rooms_are_short(rt: HostRuntime) {
    let rooms = [Room { features: BATH }, Room { features: SHOWER }];
    let bath = claim(u32::from(BATH), 0, ClaimState::Waiting);
    let no_shower = claim(0, u32::from(SHOWER), ClaimState::Waiting);
    let mut allotment = [0, 7];
    assert!(rt; !admit(&rooms, &[bath, no_shower], &mut allotment, 1));
    assert!(rt; allotment[0] == 0);
    assert!(rt; allotment[1] == 7);
}

// A span has its ends, and a golfer who is out keeps the place.
#[test]
fn golfers_meet(rt: HostRuntime) {
    let places = [TeePlace { minute: 480 }, TeePlace { minute: 490 }];
    let out = claim(480, 490, ClaimState::Out(ItemNumber(1)));
    let early = claim(480, 480, ClaimState::Waiting);
    let late = claim(490, 490, ClaimState::Waiting);
    let mut allotment = [0, 0];
    assert!(rt; !admit(&places, &[out, early], &mut allotment, 1));
    assert!(rt; admit(&places, &[out, late], &mut allotment, 1));
    assert!(rt; allotment[1] == 1);
}

// What has not one entry for each claim is turned away.
#[test]
fn lengths_differ(rt: HostRuntime) {
    let places = [TeePlace { minute: 480 }];
    let early = claim(480, 480, ClaimState::Waiting);
    let mut allotment = [0, 0];
    assert!(rt; !admit(&places, &[early], &mut allotment, 0));
    assert!(rt; !admit(&places, &[early, early], &mut allotment, 2));
}
