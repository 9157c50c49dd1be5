// The stack layer: rows of one transducer on rows of another.
ghost use Rattle.std.specs.Prelude.{◌≡◌, ◌<◌, ◌≤◌, MatchResult};
ghost use Rattle.transducers.specs.Held.{StackRefused, held_edge, stack_held};
ghost use Rattle.transducers.specs.Stacking.{paired, stack};
ghost use Rattle.transducers.specs.Stacks.{held_valid};

use crate::counts::Counts;
use crate::fault::StackFault;
use crate::transducer::Transducer;

// States and slots are pairs; a slot has an edge where both parts have one and the lower north is the upper south.
#[derive(Drop)]
pub struct Stack<L, U> {
    lower: L,
    upper: U,
    counts: Counts,
}

impl<L: Transducer + Drop, U: Transducer + Drop> Stack<L, U> {
    // The upper transducer on the lower.
    pub fn new(lower: L, upper: U) -> Result<Stack<L, U>, StackFault>
        ensures { MatchResult result
            (λ s.
            (s.lower ≡ lower)
            × (s.upper ≡ upper)
            × (stack_held s.counts (L.meaning lower) (U.meaning upper)
            ≡ stack (L.meaning lower) (U.meaning upper)))
            (λ f. StackRefused f (L.meaning lower) (U.meaning upper)) }
    {
        let counts = Counts::of_stack(&lower, &upper)?;
        Ok(Stack {
            lower,
            upper,
            counts,
        })
    }
}

// The number of a pair of states.
fn pair_of(low: u32, high: u32, states: u32) -> u32
    requires lower { low < 4096 }
    requires upper { high < 4096 }
    requires few_states { states ≤ 4096 }
    ensures { result ≡ paired states low high }
{
    low * states + high
}

impl<L: Transducer, U: Transducer> Stack<L, U> {
    // The edges of both parts of slot i, as one.
    fn both(&self, i: u32) -> Option<(u32, u32, u32, u32)>
        ensures { result
            ≡ held_edge self.now.counts
            ((stack (L.meaning self.now.lower) (U.meaning self.now.upper)).edge i) }
    {
        let slots = self.upper.slots();
        let (from, to, south, meeting) = self.lower.slot(i / slots)?;
        let (high_from, high_to, high_south, north) = self.upper.slot(i % slots)?;
        if meeting != high_south {
            return None;
        }
        let states = self.upper.states();
        let from = pair_of(from, high_from, states);
        let to = pair_of(to, high_to, states);
        let edge = (from, to, south, north);
        self.counts.holds(edge).then_some(edge)
    }
}

impl<L: Transducer, U: Transducer> Transducer for Stack<L, U> {
    ghost meaning = { λ s. stack_held s.counts (L.meaning s.lower) (U.meaning s.upper) };

    ghost valid = { λ t. held_valid t.counts _ };

    fn states(&self) -> u32 {
        self.counts.states
    }

    fn letters(&self) -> u32 {
        self.counts.letters
    }

    fn slots(&self) -> u32 {
        self.counts.slots
    }

    fn slot(&self, i: u32) -> Option<(u32, u32, u32, u32)> {
        if i < self.counts.slots {
            self.both(i)
        } else {
            None
        }
    }
}
