// What a paper claims of a transducer.
use std::error::Error;
use std::fmt;

// A strip is a walk, a ring a closed walk, a ranking a number for each state that falls along every edge,
// a torus a periodic tiling.
#[derive(Clone, Copy, PartialEq, Eq, Debug)]
pub enum Kind {
    Strip = 1,
    Ring = 2,
    Ranking = 3,
    Torus = 4,
}

// A number that no kind has.
#[derive(Clone, Copy, PartialEq, Eq, Debug)]
pub struct UnknownKind(pub u8);

impl TryFrom<u8> for Kind {
    type Error = UnknownKind;

    ghost use Rattle.papers.specs.Kind.{DecodesKind};

    ghost try_from_gives = { DecodesKind };

    fn try_from(number: u8) -> Result<Kind, UnknownKind> {
        match number {
            1 => Ok(Kind::Strip),
            2 => Ok(Kind::Ring),
            3 => Ok(Kind::Ranking),
            4 => Ok(Kind::Torus),
            _ => Err(UnknownKind(number)),
        }
    }
}

impl From<Kind> for u8 {
    ghost use Rattle.std.specs.Prelude.{◌≡◌};
    ghost use Rattle.papers.specs.Kind.{kind_number};

    ghost from_gives = { λ kind number. number ≡ kind_number kind };

    fn from(kind: Kind) -> u8 {
        // What a variant's number is, Rust says by `as` alone.
        kind as u8
    }
}

impl fmt::Display for UnknownKind {
    ghost use Rattle.std.specs.Prelude.{◌++◌, Some, codes, decimal};

    ghost output = { λ e. Some (codes "no kind has number " ++ decimal e.0) };

    fn fmt<W: fmt::Write>(&self, f: &mut fmt::Formatter<W>) -> fmt::Result {
        write!(f, "no kind has number {}", self.0)
    }
}

impl Error for UnknownKind {}
