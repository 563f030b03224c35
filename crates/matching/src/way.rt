use arrayvec::ArrayVec;
use claims::MOST_CLAIMS;
use std::mem::replace;

// A claim that was reached, and the place among the steps of the one that it was reached from: places and no boxes, since
// a rule of the project has no call of the matching ask for memory.
#[derive(Clone, Copy, Default)]
pub(crate) struct Step {
    pub(crate) claim: usize,
    pub(crate) from: usize,
}

// The claims reached from a new claim, which is the first, in the order in which they were reached.
pub(crate) type Steps = ArrayVec<Step, MOST_CLAIMS>;

// The end of a way from a new claim to a good that no other claim has: the claim at a place of the steps is to have it.
#[derive(Clone, Copy)]
pub(crate) struct Way {
    pub(crate) place: usize,
    pub(crate) good: usize,
}

// There is no way: the claims reached are too many for the goods that suit any of them. The steps have them, so that a
// later call can list them; `admit` answers no more than that there are too many.
#[derive(Clone, Copy)]
pub(crate) struct TooFew;

impl Way {
    ghost use Rattle.std.specs.Prelude.{ℕ, ◌+◌, ◌<◌, Bool, length};
    ghost use Rattle.matching.specs.Paths.{Allots, Path, Queued, all_but, all_of};

    // Gives the good to the claim at the end, that claim's good to the one that it was reached from, and so on back to
    // the claim at `new`.
    pub(crate) fn flip(&self, steps: &[Step], allotment: &mut [usize], new: usize)
        requires one { new < length allotment.old }
        requires within { self.now.place < length steps.now }
        requires queued { Queued (length allotment.old) new steps.now (self.now.place + 1) }
        ensures { (fit : ℕ → ℕ → Bool) → Path fit (length allotment.old) new allotment.old steps.now self.now.place self.now.good → Allots fit (all_but (length allotment.old) new) allotment.old → Allots fit (all_of (length allotment.old)) allotment.new }
    {
        let mut at = self.place;
        let mut given = self.good;
        // the places are those that the steps name, so that no range has them
        while at > 0 {
            let step = steps[at];
            given = replace(&mut allotment[step.claim], given);
            at = step.from;
        }
        allotment[new] = given;
    }
}
