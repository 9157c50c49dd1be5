// Widths, and what a paper shows of them.
ghost use Rattle.std.specs.Prelude.{◌≡◌};

// How wide: a number of cells, or endless, which is wider than every number and so comes last in the order.
// As an `Option`, endless would come first.
#[derive(Clone, Copy, PartialEq, Eq, PartialOrd, Ord, Debug)]
pub enum Width {
    Number(u32),
    Endless,
}

// The floor is the widest strip shown, the ceiling the narrowest limit shown.
#[derive(Clone, Copy, PartialEq, Eq, Debug)]
pub struct Ends {
    pub floor: Width,
    pub ceiling: Width,
}

// What an accepted paper shows: a width that is reached, or one that none passes. Neither is an error, as in a `Result`.
#[derive(Clone, Copy, PartialEq, Eq, Debug)]
pub enum Claim {
    Reaches(Width),
    Limits(Width),
}

impl Ends {
    ghost use Rattle.rules.specs.Widths.{moved};

    // The ends after a claim.
    pub fn after(self, claim: Claim) -> Ends
        ensures { result ≡ moved self claim }
    {
        match claim {
            Claim::Reaches(width) => Ends {
                floor: self.floor.max(width),
                ..self
            },
            Claim::Limits(width) => Ends {
                ceiling: self.ceiling.min(width),
                ..self
            },
        }
    }
}
