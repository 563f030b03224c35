//! What is promised: demands, claims and the numbers that name them, and the claims of a book in order.
#![tactic(auto)]

ghost use Rattle.std.specs.Prelude.{◌≡◌};
ghost use Rattle.claims.specs.Book.{waits_or_has};
ghost use Rattle.claims.specs.Causes.{cause_number};
ghost use Rattle.claims.specs.Rules.{is_party, waiting as waiting_claim, seated as seated_claim};

pub use counting::Counting;
pub use sorted::Claims;

mod counting;
mod sorted;

/// As many claims as a carried book may have.
pub const MOST_CLAIMS: usize = 256;

/// As many goods as may be named or listed.
pub const MOST_GOODS: usize = 256;

/// Parties are numbered from 1 up to this.
pub const LAST_PARTY: u32 = 32;

/// Shelves are numbered from 1 up to this.
pub const LAST_SHELF: u32 = 255;

/// As many units as one demand may count.
pub const MOST_UNITS: u32 = 60000;

/// The largest unit that a claim may go out with.
pub const LAST_UNIT: u32 = 65535;

/// Names a promise; no two promises of a broker have the same one.
#[derive(Clone, Copy, PartialEq, Eq)]
pub struct PromiseNumber(pub u32);

/// Names one good of a resource, from 1; 0 stands for a good without a number, as a row prints it.
#[derive(Clone, Copy, Default, PartialEq, Eq)]
pub struct ItemNumber(pub u32);

/// Names who holds a promise.
#[derive(Clone, Copy, PartialEq, Eq)]
pub struct Party(pub u32);

/// Names a claim in a book.
#[derive(Clone, Copy, PartialEq, Eq, PartialOrd, Ord)]
pub struct ClaimKey(pub u64);

/// What is wanted of one shelf; what the two numbers mean is the shelf's affair.
#[derive(Clone, Copy, Default)]
pub struct Demand {
    pub shelf: u32,
    pub first: u32,
    pub second: u32,
}

/// A claim waits for a unit, or is out with one. An enum of its own and no Option: the two states have names in
/// every rule, and `None` would not say that a claim waits.
#[derive(Clone, Copy)]
pub enum ClaimState {
    Waiting,
    Out(ItemNumber),
}

/// A party's right to one demand's goods, under its key.
#[derive(Clone, Copy)]
pub struct Claim {
    pub key: ClaimKey,
    pub party: Party,
    pub demand: Demand,
    pub state: ClaimState,
}

/// Why a resource turns a call away.
#[derive(Clone, Copy)]
pub enum Cause {
    /// the party is none, or the demand is not read
    Unreadable = 11,
    /// the key is in the book
    KeyTaken = 12,
    /// the key is not in the book
    NoSuchKey = 13,
    /// the claim is out already
    AlreadyOut = 14,
    /// a pool has too little left
    PoolShort = 21,
    /// a named good is promised, or there is none of that number
    ItemTaken = 22,
    /// the claims cannot all be given goods that suit them
    NoMatching = 23,
    /// the party would pass its limit
    OverLimit = 24,
    /// the book would have too many claims
    TooManyClaims = 25,
}

/// A refusal of a resource: its cause, and the key that the call was for.
#[derive(Clone, Copy)]
pub struct Fault {
    pub cause: Cause,
    pub key: ClaimKey,
}

impl Party {
    /// Whether there is such a party.
    pub fn is_known(self) -> bool
        ensures { result ≡ is_party self }
    {
        (1..=LAST_PARTY).contains(&self.0)
    }
}

impl ClaimState {
    /// Whether a claim in this state waits, or is out with the unit.
    pub fn waits_or_has(self, unit: u32) -> bool
        ensures { result ≡ waits_or_has unit self }
    {
        match self {
            ClaimState::Waiting => true,
            ClaimState::Out(item) => item == ItemNumber(unit),
        }
    }
}

/// A key, a party and a demand are what a caller has; with a state they are a claim.
impl Claim {
    /// A claim that comes in without a unit.
    pub fn waiting(key: ClaimKey, party: Party, demand: Demand) -> Claim
        ensures { result ≡ waiting_claim key party demand }
    {
        Claim {
            key,
            party,
            demand,
            state: ClaimState::Waiting,
        }
    }

    /// A claim that comes in with the unit that it has.
    pub fn seated(key: ClaimKey, party: Party, demand: Demand, unit: ItemNumber) -> Claim
        ensures { result ≡ seated_claim key party demand unit }
    {
        Claim {
            state: ClaimState::Out(unit),
            ..Claim::waiting(key, party, demand)
        }
    }
}

impl Cause {
    /// The number by which a cause is told.
    // The same line stands in three enums: the numbers are each enum's own, and no cast is of a type parameter.
    pub fn number(self) -> u8
        ensures { result ≡ cause_number self }
    {
        self as u8
    }
}
