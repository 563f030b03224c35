ghost use Rattle.std.specs.Prelude.{◌≡◌, ℕ, Bool, true, Some};
ghost use Rattle.claims.specs.Book.{Book, find, insert, without, out};
ghost use Rattle.claims.specs.Held.{claims_book};
ghost use Rattle.goods.specs.Fixed.{Fixed};

use claims::{Cause, Claim, Claims, Demand, ItemNumber};

/// Goods of which a demand says which unit goes out, and which may note the claims that come in and leave, as a pool keeps
/// their sum. The goods of a `Stock` are such.
pub trait NotingGoods {
    /// What they read and count, whether there are enough of them, and the laws that they keep.
    ghost goods: { Self → Fixed };

    /// Whether what they keep of the claims beside the book, such as a sum, is that of a book.
    ghost noted: { Self → Book → Bool };

    /// Whether a demand is well formed.
    fn is_well_formed(&self, demand: Demand) -> bool
        ensures { result ≡ (goods self.now).formed demand };

    /// How many units a demand counts, if it is well formed.
    fn units_counted(&self, demand: Demand) -> usize
        ensures { result ≡ (goods self.now).amount demand };

    /// The unit that goes out for a demand.
    fn unit_given(&self, demand: Demand) -> ItemNumber
        ensures { result.0 ≡ (goods self.now).unit demand };

    /// Whether the goods suffice for one claim more than those that they have noted and for which they suffice.
    fn suffice_as_noted(&self, claims: &Claims, claim: Claim) -> bool
        ensures { noted self.now (claims_book claims.now) ≡ true → (goods self.now).suffice (claims_book claims.now) ≡ true → result ≡ (goods self.now).suffice (insert claim (claims_book claims.now)) };

    /// Notes a claim that comes in, for which the goods suffice.
    fn note(&mut self, claim: Claim)
        ensures same { goods self.new ≡ goods self.old }
        ensures kept { (b : Book) → noted self.old b ≡ true → (goods self.old).suffice (insert claim b) ≡ true → noted self.new (insert claim b) ≡ true };

    /// Forgets a claim that leaves.
    fn forget(&mut self, claim: Claim)
        ensures same { goods self.new ≡ goods self.old }
        ensures kept { (k : ℕ) → (b : Book) → noted self.old b ≡ true → find b k ≡ Some claim → noted self.new (without k b) ≡ true };

    /// Why a claim is turned away for which they do not suffice.
    fn why_short(&self) -> Cause
        ensures { result ≡ (goods self.now).short };

    /// A claim that goes out is noted as it was.
    ghost alike: { (s : Self) → (k u : ℕ) → (b : Book) → noted s b ≡ true → noted s (out k u b) ≡ true };
}
