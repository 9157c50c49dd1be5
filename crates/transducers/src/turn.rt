// The turned layer: walks go up the columns of the set below.
ghost use Rattle.std.specs.Prelude.{◌≡◌};
ghost use Rattle.transducers.specs.Turning.{turn};
ghost use Rattle.transducers.specs.Turned.{turn_valid};

use crate::transducer::Transducer;

// Exchanges from with south, to with north, and states with letters. Slots stay.
#[derive(Drop)]
pub struct Turn<T> {
    below: T,
}

impl<T: Transducer> Turn<T> {
    pub fn new(below: T) -> Turn<T>
        ensures { result.below ≡ below }
    {
        Turn { below }
    }
}

impl<T: Transducer> Transducer for Turn<T> {
    ghost meaning = { λ t. turn (T.meaning t.below) };

    ghost valid = { λ t. turn_valid _ (T.Transducer.valid t.below) };

    fn states(&self) -> u32 {
        self.below.letters()
    }

    fn letters(&self) -> u32 {
        self.below.states()
    }

    fn slots(&self) -> u32 {
        self.below.slots()
    }

    fn slot(&self, i: u32) -> Option<(u32, u32, u32, u32)> {
        let (from, to, south, north) = self.below.slot(i)?;
        Some((south, north, from, to))
    }
}
