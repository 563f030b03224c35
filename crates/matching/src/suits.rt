ghost use Rattle.std.specs.Prelude.{◌≡◌, Bool};
ghost use Rattle.claims.specs.declared.Demand.{Demand};

use claims::Demand;

/// A good that can be asked whether it suits a demand.
pub trait Suits {
    /// Whether a good suits a demand.
    ghost suiting: { Self → Demand → Bool };

    /// Whether a demand is well formed for goods of this kind.
    ghost formed: { Demand → Bool };

    /// Whether the good suits a demand.
    fn suits(&self, demand: Demand) -> bool
        ensures { result ≡ suiting self.now demand };

    /// Whether a demand is well formed for goods of this kind.
    fn is_formed(demand: Demand) -> bool
        ensures { result ≡ formed demand };
}
