// Piles of a kind over copies of a bottom.
ghost use Rattle.std.specs.Prelude.{IfErr, MatchResult};
ghost use Rattle.piles.specs.Piles.{FirstRefused, PileOf, StackedRefused, pile_meaning};
ghost use Rattle.piles.specs.PilesKept.{pile_valid};
ghost use Rattle.piles.specs.declared.pile_kind.PileKind.TheVariants.{FourHigh};

use crate::pile_fault::PileFault;
use crate::pile_kind::PileKind;
use std::alloc::Global;
use transducers::{Stack, Transducer, Turn};
use trimming::Trim;

// A pile over bottoms of one type. A layer holds the one below by value, so each kind of pile is a type of its own, and a
// question matches on it.
#[derive(Drop)]
pub enum Pile<B> {
    Plain(B),
    Turned(Turn<B>),
    TwoHigh(Stack<B, B>),
    Trimmed(Trim<B>),
    TrimmedTwoHigh(Trim<Stack<B, B>>),
    FourHigh(Stack<Stack<B, B>, Stack<B, B>>),
}

// Two pairs, one on the other. It stands apart since its proof needs an answer: copies out of order are refused where
// it is called, for what they mean.
fn four_high<B: Transducer + Drop>(a: B, b: B, c: B, d: B) -> Result<Pile<B>, PileFault>
    ensures made { MatchResult result
        (λ p. PileOf FourHigh (B.meaning a) (B.meaning b) (B.meaning c) (B.meaning d)
        (pile_meaning B.Transducer.meaning p))
        (λ f. StackedRefused FourHigh f (B.meaning a) (B.meaning b) (B.meaning c) (B.meaning d)) }
    ensures first { IfErr result
        (λ f. FirstRefused FourHigh f (B.meaning a) (B.meaning b) (B.meaning c) (B.meaning d)) }
{
    let lower = Stack::new(a, b)?;
    let upper = Stack::new(c, d)?;
    Ok(Pile::FourHigh(Stack::new(lower, upper)?))
}

// The pile of a kind over four copies of a bottom, of which it takes as many as it wants. Callers are promised the four
// as parameters.
pub fn make_pile<B: Transducer + Drop>(
    heap: Global,
    kind: PileKind,
    a: B,
    b: B,
    c: B,
    d: B,
) -> Result<Pile<B>, PileFault>
    ensures made { MatchResult result
        (λ p. PileOf kind (B.meaning a) (B.meaning b) (B.meaning c) (B.meaning d)
        (pile_meaning B.Transducer.meaning p))
        (λ f. StackedRefused kind f (B.meaning a) (B.meaning b) (B.meaning c) (B.meaning d)) }
    ensures first { IfErr result
        (λ f. FirstRefused kind f (B.meaning a) (B.meaning b) (B.meaning c) (B.meaning d)) }
{
    match kind {
        PileKind::Plain => Ok(Pile::Plain(a)),
        PileKind::Turned => Ok(Pile::Turned(Turn::new(a))),
        PileKind::TwoHigh => Ok(Pile::TwoHigh(Stack::new(a, b)?)),
        PileKind::Trimmed => Ok(Pile::Trimmed(Trim::new(heap, a)?)),
        PileKind::TrimmedTwoHigh => {
            let pair = Stack::new(a, b)?;
            Ok(Pile::TrimmedTwoHigh(Trim::new(heap, pair)?))
        }
        PileKind::FourHigh => four_high(a, b, c, d),
    }
}

impl<B: Transducer> Transducer for Pile<B> {
    ghost meaning = { λ p. pile_meaning B.Transducer.meaning p };

    ghost valid = { λ t. pile_valid B.Transducer.meaning B.Transducer.valid t };

    fn states(&self) -> u32 {
        match self {
            Pile::Plain(t) => t.states(),
            Pile::Turned(t) => t.states(),
            Pile::TwoHigh(t) => t.states(),
            Pile::Trimmed(t) => t.states(),
            Pile::TrimmedTwoHigh(t) => t.states(),
            Pile::FourHigh(t) => t.states(),
        }
    }

    fn letters(&self) -> u32 {
        match self {
            Pile::Plain(t) => t.letters(),
            Pile::Turned(t) => t.letters(),
            Pile::TwoHigh(t) => t.letters(),
            Pile::Trimmed(t) => t.letters(),
            Pile::TrimmedTwoHigh(t) => t.letters(),
            Pile::FourHigh(t) => t.letters(),
        }
    }

    fn slots(&self) -> u32 {
        match self {
            Pile::Plain(t) => t.slots(),
            Pile::Turned(t) => t.slots(),
            Pile::TwoHigh(t) => t.slots(),
            Pile::Trimmed(t) => t.slots(),
            Pile::TrimmedTwoHigh(t) => t.slots(),
            Pile::FourHigh(t) => t.slots(),
        }
    }

    fn slot(&self, i: u32) -> Option<(u32, u32, u32, u32)> {
        match self {
            Pile::Plain(t) => t.slot(i),
            Pile::Turned(t) => t.slot(i),
            Pile::TwoHigh(t) => t.slot(i),
            Pile::Trimmed(t) => t.slot(i),
            Pile::TrimmedTwoHigh(t) => t.slot(i),
            Pile::FourHigh(t) => t.slot(i),
        }
    }
}
