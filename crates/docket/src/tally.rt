// How many papers were accepted and turned down.
ghost use Rattle.std.specs.Prelude.{◌≡◌};
ghost use Rattle.docket.specs.Tallies.{counted, entry_of, tallied, tally_in};

use papers::Kind;

// Each count stops at 65,535.
#[derive(Clone, Copy, Default, PartialEq, Eq, Debug)]
pub struct Tally {
    pub accepted: u16,
    pub refused: u16,
}

impl Tally {
    // One paper more.
    fn count(&mut self, accepted: bool)
        ensures { self.new ≡ counted self.old accepted }
    {
        if accepted {
            self.accepted = self.accepted.saturating_add(1);
        } else {
            self.refused = self.refused.saturating_add(1);
        }
    }
}

// A record for each kind, and the last for papers that could not be read.
#[derive(Clone, Copy, Default)]
pub(crate) struct Tallies {
    table: [Tally; 5],
}

// The place in the table of the record of a kind, or of none: an order of records, which the numbers of kinds do not say.
fn entry(kind: Option<Kind>) -> usize
    ensures { result ≡ entry_of kind }
{
    match kind {
        Some(Kind::Strip) => 0,
        Some(Kind::Ring) => 1,
        Some(Kind::Ranking) => 2,
        Some(Kind::Torus) => 3,
        None => 4,
    }
}

impl Tallies {
    pub(crate) fn of(&self, kind: Option<Kind>) -> Tally
        ensures { result ≡ tally_in self.now.table kind }
    {
        self.table[entry(kind)]
    }

    // One paper more under a kind, or under none.
    pub(crate) fn count(&mut self, kind: Option<Kind>, accepted: bool)
        ensures { self.new.table ≡ tallied self.old.table kind accepted }
    {
        self.table[entry(kind)].count(accepted);
    }
}
