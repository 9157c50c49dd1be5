// The counts of a layer, within the limits of every transducer.
ghost use Rattle.std.specs.Prelude.{◌≡◌, ◌≤◌, MatchResult};

use crate::fault::StackFault;
use crate::transducer::Transducer;

const MOST_STATES: u32 = 4096;

const MOST_SLOTS: u32 = 1048576;

// Held by a layer, so that no question about them goes down through the layers.
#[derive(Clone, Copy, PartialEq, Eq, Debug)]
pub struct Counts {
    pub(crate) states: u32,
    pub(crate) letters: u32,
    pub(crate) slots: u32,
    ghost some_state: { 1 ≤ states },
    ghost few_states: { states ≤ 4096 },
    ghost some_letter: { 1 ≤ letters },
    ghost few_letters: { letters ≤ 4096 },
    ghost some_slot: { 1 ≤ slots },
    ghost few_slots: { slots ≤ 1048576 },
}

impl Counts {
    ghost use Rattle.transducers.specs.Held.{CountsOf, StackRefused, lies_inside};
    ghost use Rattle.transducers.specs.Stacking.{stack};

    // The counts of a stack, within the limits.
    pub(crate) fn of_stack<L: Transducer, U: Transducer>(
        lower: &L,
        upper: &U,
    ) -> Result<Counts, StackFault>
        ensures { MatchResult result
            (λ c. CountsOf c (stack (L.meaning lower.now) (U.meaning upper.now)))
            (λ f. StackRefused f (L.meaning lower.now) (U.meaning upper.now)) }
    {
        let states = lower.states().saturating_mul(upper.states());
        let slots = lower.slots().saturating_mul(upper.slots());
        if states > MOST_STATES {
            return Err(StackFault::States);
        }
        if slots > MOST_SLOTS {
            return Err(StackFault::Slots);
        }
        Ok(Counts {
            states,
            letters: lower.letters().max(upper.letters()),
            slots,
        })
    }

    // Whether an edge lies among the states and the letters.
    pub(crate) fn holds(self, edge: (u32, u32, u32, u32)) -> bool
        ensures { result ≡ lies_inside self edge }
    {
        let (from, to, south, north) = edge;
        from < self.states && to < self.states && south < self.letters && north < self.letters
    }
}
