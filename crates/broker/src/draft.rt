//! The draft of a promise: what it is to hold.
ghost use Rattle.std.specs.Prelude.{◌≤◌};
ghost use Rattle.arrayvec.specs.ArrayVec.{array_vec_len};
ghost use Rattle.machine.specs.Limits.{most_demands};

use arrayvec::ArrayVec;
use claims::Demand;
use machine::{MOST_DEMANDS, Refusal};

/// A bundle of demands that a promise is to be asked for. It is no `Copy`: an ask uses it up.
// Clauses read it through `demands_of`, which the rules of a call name too: a `Model` would say the same once more.
#[derive(Drop)]
pub struct Draft {
    demands: ArrayVec<Demand, MOST_DEMANDS>,
    ghost few: { array_vec_len demands ≤ most_demands },
}

impl Draft {
    ghost use Rattle.std.specs.Prelude.{◌≡◌, [], length};
    ghost use Rattle.broker.specs.Drafts.{demands_of, push_answer, with_demand};

    /// A draft of no demands.
    pub fn new() -> Draft
        ensures { demands_of result ≡ [] }
    {
        Draft {
            demands: ArrayVec::new(),
        }
    }

    /// How many demands there are.
    pub fn len(&self) -> usize
        ensures { result ≡ length (demands_of self.now) }
    {
        self.demands.len()
    }

    /// One demand more; a full draft refuses it and stands.
    pub fn push(&mut self, demand: Demand) -> Result<(), Refusal>
        ensures value { result ≡ push_answer (demands_of self.old) }
        ensures after { demands_of self.new ≡ with_demand demand (demands_of self.old) }
    {
        self.demands
            .try_push(demand)
            .map_err(|_| Refusal::DraftSize)
    }

    /// The demands, in their order.
    pub fn as_slice(&self) -> &[Demand]
        ensures { result.now ≡ demands_of self.now }
    {
        self.demands.as_slice()
    }
}
