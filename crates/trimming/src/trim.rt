// A transducer without the edges that lead nowhere.
ghost use Rattle.std.specs.Prelude.{◌≡◌, ℕ, ◌&&◌, length, IfOk};
ghost use Rattle.trimming.specs.Trimming.{Largest, kept_set, listed, trim};
ghost use Rattle.trimming.specs.TrimmingLemmas.{trim_valid};

use crate::graph::Graph;
use std::alloc::{AllocError, Global};
use transducers::Transducer;

// The transducer below, where an edge stays if both its states are kept.
#[derive(Drop)]
pub struct Trim<T> {
    below: T,
    kept: Vec<bool>,
}

// Takes out of a list of states those that another list lacks.
fn keep_common(states: &mut [bool], other: &[bool])
    requires sizes { length states.old ≡ length other.now }
    ensures { (q : ℕ) → listed states.new q ≡ (listed states.old q && listed other.now q) }
{
    for state in 0..states.len() {
        states[state] &= other[state];
    }
}

// The states from which edges can be followed for ever both ways.
fn thriving<T: Transducer>(heap: Global, below: &T) -> Result<Vec<bool>, AllocError>
    ensures { IfOk result (λ v. Largest (T.meaning below.now) (listed v.items)) }
{
    let graph = Graph::new(heap, below)?;
    let mut kept = graph.lasting(heap)?;
    let back = graph.reversed().lasting(heap)?;
    keep_common(&mut kept, &back);
    Ok(kept)
}

impl<T: Transducer + Drop> Trim<T> {
    // Keeps the largest set of states that thrives.
    pub fn new(heap: Global, below: T) -> Result<Trim<T>, AllocError>
        ensures { IfOk result (λ t. (t.below ≡ below) × Largest (T.meaning below) (kept_set t)) }
    {
        let kept = thriving(heap, &below)?;
        Ok(Trim { below, kept })
    }
}

impl<T> Trim<T> {
    // Whether a state is kept; one past the list is not. Rust has no `From` of `u32` for `usize`.
    fn keeps(&self, state: u32) -> bool
        ensures { result ≡ kept_set self.now state }
    {
        self.kept.get(state as usize).copied().unwrap_or(false)
    }
}

impl<T: Transducer> Transducer for Trim<T> {
    ghost meaning = { λ t. trim (T.Transducer.meaning t.below) (kept_set t) };

    ghost valid = { λ t. trim_valid _ (kept_set t) (T.Transducer.valid t.below) };

    fn states(&self) -> u32 {
        self.below.states()
    }

    fn letters(&self) -> u32 {
        self.below.letters()
    }

    fn slots(&self) -> u32 {
        self.below.slots()
    }

    fn slot(&self, i: u32) -> Option<(u32, u32, u32, u32)> {
        self.below
            .slot(i)
            .filter(|&(from, to, _, _)| self.keeps(from) && self.keeps(to))
    }
}
