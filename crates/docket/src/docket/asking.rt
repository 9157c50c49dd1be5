// The questions of a docket. They change nothing. Apart from docket.rt, so that the text that a must-fail edit replaces
// stands once in its file.
ghost use Rattle.std.specs.Prelude.{◌≡◌};
ghost use Rattle.docket.specs.Tallies.{tally_in};

use crate::docket::Docket;
use crate::tally::Tally;
use papers::Kind;
use rules::Ends;
use transducers::Transducer;

impl<P: Transducer> Docket<P> {
    ghost use Rattle.docket.specs.Dockets.{ends_of, tallies_of};

    // The floor and the ceiling.
    pub fn ends(&self) -> Ends
        ensures { result ≡ ends_of self.now }
    {
        self.ends
    }

    // How many papers of a kind were accepted and turned down; under none, those that could not be read.
    pub fn tally(&self, kind: Option<Kind>) -> Tally
        ensures { result ≡ tally_in (tallies_of self.now) kind }
    {
        self.tallies.of(kind)
    }
}
