ghost use Rattle.std.specs.Prelude.{◌≡◌, true};
ghost use Rattle.claims.specs.Book.{insert};
ghost use Rattle.claims.specs.Held.{claims_book};
ghost use Rattle.goods.specs.Fixed.{Fixed};

use claims::{Cause, Claim, Claims, Demand, ItemNumber};

/// Goods of which a demand says which unit goes out.
pub trait Goods {
    /// What they read and count, whether there are enough of them, and the laws that they keep.
    ghost goods: { Self → Fixed };

    /// Whether a demand is well formed.
    fn is_formed(&self, demand: Demand) -> bool
        ensures { result ≡ (goods self.now).formed demand };

    /// How many units a demand counts, if it is well formed.
    fn amount(&self, demand: Demand) -> usize
        ensures { result ≡ (goods self.now).amount demand };

    /// The unit that goes out for a demand.
    fn unit(&self, demand: Demand) -> ItemNumber
        ensures { result.0 ≡ (goods self.now).unit demand };

    /// Whether the goods suffice for one claim more than those for which they suffice.
    fn suffice_with(&self, claims: &Claims, claim: Claim) -> bool
        ensures { (goods self.now).suffice (claims_book claims.now) ≡ true → result ≡ (goods self.now).suffice (insert claim (claims_book claims.now)) };

    /// Why a claim is turned away for which they do not suffice.
    fn shortage(&self) -> Cause
        ensures { result ≡ (goods self.now).short };
}
