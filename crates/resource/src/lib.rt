//! What every kind of goods answers to.
#![tactic(auto)]

ghost use Rattle.std.specs.Prelude.{◌≡◌, length};
ghost use Rattle.claims.specs.Book.{Book, find};
ghost use Rattle.claims.specs.Rules.{Rules, waiting, seated};
ghost use Rattle.claims.specs.Units.{units_of};
ghost use Rattle.resource.specs.Calls.{Placed, Lifted, Drawn};
ghost use Rattle.resource.specs.Standing.{Standing};

use claims::{Claim, ClaimKey, Demand, Fault, ItemNumber, Party};

/// Goods under claims: a book of claims, and the rules of its kind.
pub trait Resource {
    /// What the kind means: which demands it reads, what they count, which books it carries, why it refuses.
    ghost rules: { Self → Rules };

    /// The claims that are in it.
    ghost book: { Self → Book };

    /// Takes in a claim, which waits or is out with a unit, or says why not; the book then stays as it was.
    fn take_in(&mut self, claim: Claim) -> Result<(), Fault>
        ensures { Placed claim (rules self.old) (book self.old) result (rules self.new) (book self.new) };

    /// Takes in a claim that waits. A key, a party and a demand are what a caller has; with a state they are a `Claim`,
    /// which `take_in` takes.
    fn place(&mut self, key: ClaimKey, party: Party, demand: Demand) -> Result<(), Fault>
        ensures { Placed (waiting key party demand) (rules self.old) (book self.old) result (rules self.new) (book self.new) }
    {
        self.take_in(Claim::waiting(key, party, demand))
    }

    /// Takes in a claim that is out with a unit.
    // Its arguments stand one by one, as those of `place`.
    fn seat(
        &mut self,
        key: ClaimKey,
        party: Party,
        demand: Demand,
        unit: ItemNumber,
    ) -> Result<(), Fault>
        ensures { Placed (seated key party demand unit) (rules self.old) (book self.old) result (rules self.new) (book self.new) }
    {
        self.take_in(Claim::seated(key, party, demand, unit))
    }

    /// Lets a waiting claim go out with the least unit that keeps the book carried.
    fn draw(&mut self, key: ClaimKey) -> Result<ItemNumber, Fault>
        ensures { Drawn key (rules self.old) (book self.old) result (rules self.new) (book self.new) };

    /// Takes a claim out of the book.
    fn lift(&mut self, key: ClaimKey) -> Result<(), Fault>
        ensures { Lifted key (rules self.old) (book self.old) result (rules self.new) (book self.new) };

    /// The claim under a key.
    fn claim(&self, key: ClaimKey) -> Option<Claim>
        ensures { result ≡ find (book self.now) key.0 };

    /// How many claims there are.
    fn count(&self) -> usize
        ensures { result ≡ length (book self.now) };

    /// Whether a demand is read.
    fn reads(&self, demand: Demand) -> bool
        ensures { result ≡ (rules self.now).reads demand };

    /// How many units a demand counts; 0 for one that is not read.
    fn units(&self, demand: Demand) -> usize
        ensures { result ≡ (rules self.now).counts demand };

    /// The units of all claims of a party.
    fn party_units(&self, party: Party) -> usize
        ensures { result ≡ units_of (rules self.now).counts party.0 (book self.now) };

    /// What holds of every resource at any time: its rules keep to the laws of every kind, its book rises by key and
    /// is carried, and each claim in it is a party's and of a demand that is read.
    ghost standing: { (s : Self) → Standing (rules s) (book s) };
}
