// The links between the states of a transducer, and the states from which they can be followed for ever.
ghost use Rattle.std.specs.Prelude.{◌≡◌, ℕ, ◌+◌, ◌≤◌, length, sum, slice_index, vec_len, IfOk, OnOk};
ghost use Rattle.trimming.specs.Draining.{AreDeadEnds, Left, standing};
ghost use Rattle.trimming.specs.Linking.{IsReverse, times_in};
ghost use Rattle.trimming.specs.Lists.{rows};
ghost use Rattle.trimming.specs.Trimming.{listed};

use crate::link::{links_of, turn_round};
use crate::lists::Lists;
use std::alloc::{AllocError, Global};
use transducers::Transducer;

// A link for each edge. The two lists of a state stand apart, so that exchanging them turns every link round.
#[derive(Drop)]
pub(crate) struct Graph {
    // for each state the states that its links lead to
    out: Lists,
    // for each state the states whose links lead to it
    into: Lists,
    ghost same_size: { length (rows out) ≡ length (rows into) },
    ghost reverse: { IsReverse (rows out) (rows into) },
}

// Takes a link from a state each time that it is listed. One that has none left is to go too.
fn unlink(states: &[u16], counts: &mut [u32], going: &mut Vec<usize>) -> Result<(), AllocError>
    requires { (q : ℕ) → times_in states.now q ≤ slice_index counts.old q }
    ensures counts { OnOk result ((q : ℕ) →
        slice_index counts.new q + times_in states.now q ≡ slice_index counts.old q) }
    ensures standing { OnOk result ((q : ℕ) →
        standing counts.new going.new.items q ≡ standing counts.old going.old.items q) }
    // what falls as states go
    ensures weight { OnOk result (sum counts.new + vec_len going.new ≤ sum counts.old + vec_len going.old) }
{
    for &state in states {
        let state = usize::from(state);
        counts[state] -= 1;
        if counts[state] == 0 {
            going.push(state)?;
        }
    }
    Ok(())
}

impl Graph {
    ghost use Rattle.trimming.specs.Graphs.{IsGraphOf, intos, outs};

    // Asks each slot once.
    pub(crate) fn new<T: Transducer>(heap: Global, below: &T) -> Result<Graph, AllocError>
        ensures { IfOk result (IsGraphOf (T.meaning below.now)) }
    {
        // Rust has no `From` of `u32` for `usize`.
        let states = below.states() as usize;
        let mut links = links_of(heap, below)?;
        let out = Lists::new(heap, states, &links)?;
        turn_round(&mut links);
        let into = Lists::new(heap, states, &links)?;
        Ok(Graph { out, into })
    }

    // The same links, each turned round.
    pub(crate) fn reversed(self) -> Graph
        ensures out { result.out ≡ self.into }
        ensures into { result.into ≡ self.out }
    {
        Graph {
            out: self.into,
            into: self.out,
        }
    }

    // The states that links lead to, but none from.
    fn dead_ends(&self, heap: Global) -> Result<Vec<usize>, AllocError>
        ensures { IfOk result (λ v. AreDeadEnds (outs self.now) (intos self.now) v.items) }
    {
        let mut dead_ends = Vec::new(heap);
        for state in 0..self.out.len() {
            if self.out.of(state).is_empty() && !self.into.of(state).is_empty() {
                dead_ends.push(state)?;
            }
        }
        Ok(dead_ends)
    }

    // A state without a link to a state that is left goes, until each has one: the states that are left then.
    pub(crate) fn lasting(&self, heap: Global) -> Result<Vec<bool>, AllocError>
        ensures size { IfOk result (λ kept. length kept.items ≡ length (outs self.now)) }
        ensures left { IfOk result (λ kept. Left (outs self.now) (listed kept.items)) }
    {
        // for each state how many links it has to states that are left
        let mut counts = self.out.lengths(heap)?;
        // the states that have none, and are still to go; one that no link leads to takes none with it
        let mut going = self.dead_ends(heap)?;
        // the list grows as it is worked off
        while let Some(state) = going.pop() {
            unlink(self.into.of(state), &mut counts, &mut going)?;
        }
        counts.iter().map(|&count| count > 0).collect(heap)
    }
}
