// The piles that a set text can name, and their numbers.
use crate::pile_fault::PileFault;

// 1 the set, 2 turned, 3 two high, 4 trimmed, 5 two high and then trimmed, 6 two of pile 3 stacked.
#[derive(Clone, Copy, PartialEq, Eq, Debug)]
pub enum PileKind {
    Plain,
    Turned,
    TwoHigh,
    Trimmed,
    TrimmedTwoHigh,
    FourHigh,
}

// The pile of a set text's number. A number that names none is refused as a list is.
impl TryFrom<u8> for PileKind {
    ghost use Rattle.std.specs.Prelude.{◌≡◌};
    ghost use Rattle.piles.specs.PileKinds.{numbered};

    type Error = PileFault;

    ghost try_from_gives = { λ number r. r ≡ numbered number };

    fn try_from(number: u8) -> Result<PileKind, PileFault> {
        match number {
            1 => Ok(PileKind::Plain),
            2 => Ok(PileKind::Turned),
            3 => Ok(PileKind::TwoHigh),
            4 => Ok(PileKind::Trimmed),
            5 => Ok(PileKind::TrimmedTwoHigh),
            6 => Ok(PileKind::FourHigh),
            _ => Err(PileFault::List),
        }
    }
}
