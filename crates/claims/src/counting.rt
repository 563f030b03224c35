ghost use Rattle.std.specs.Prelude.{◌≡◌, ℕ, ◌≤◌};
ghost use Rattle.claims.specs.declared.Demand.{Demand};
ghost use Rattle.claims.specs.Limits.{most_units};

use crate::Demand;

/// Whatever can say how many units a demand counts. A trait and no closure: the sum of a party's units fits only if
/// each demand counts few, and with a closure every caller would have to show that.
pub trait Counting {
    ghost counts: { Self → Demand → ℕ };

    /// How many units a demand counts.
    fn units_of(&self, demand: Demand) -> usize
        ensures value { result ≡ counts self.now demand }
        ensures small { result ≤ most_units };
}
