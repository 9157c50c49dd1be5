// The docket: one pile, the two widths, and tallies.
ghost use Rattle.std.specs.Prelude.{◌≡◌};
ghost use Rattle.laws.specs.Accepted.{FilingLaw};
ghost use Rattle.rules.specs.Filing.{ends_after, filing_answer, judged};
ghost use Rattle.laws.specs.Promise.{Promise};
ghost use Rattle.docket.specs.Tallies.{no_tallies, tallies_after};
ghost use Rattle.rules.specs.Widths.{fresh_ends};

use crate::tally::Tallies;
use papers::read_paper;
use rules::{DocketFault, Ends, Width, weigh};
use transducers::Transducer;

mod asking;

// A pile is any transducer, with layers on it or none.
#[derive(Drop)]
pub struct Docket<P> {
    pile: P,
    ends: Ends,
    tallies: Tallies,
}

impl<P: Transducer> Docket<P> {
    ghost use Rattle.docket.specs.Dockets.{ends_of, pile_of, tallies_of};

    // A new docket: floor 0, ceiling endless, no papers. It promises of every list of calls that follows what the two
    // widths then mean.
    pub fn open(pile: P) -> Docket<P>
        ensures pile { pile_of result ≡ pile }
        ensures ends { ends_of result ≡ fresh_ends }
        ensures tallies { tallies_of result ≡ no_tallies }
        ensures promise { Promise (P.meaning pile) }
    {
        Docket {
            pile,
            ends: Ends {
                floor: Width::Number(0),
                ceiling: Width::Endless,
            },
            tallies: Tallies::default(),
        }
    }

    // Files a paper: it is accepted and may move a width, or turned down with its first fault.
    pub fn file(&mut self, paper: &[u8]) -> Result<Ends, DocketFault>
        ensures answer { result ≡ filing_answer (ends_of self.old) (judged (P.meaning (pile_of self.old)) paper.now) }
        ensures pile { pile_of self.new ≡ pile_of self.old }
        ensures ends { ends_of self.new
            ≡ ends_after (ends_of self.old) (judged (P.meaning (pile_of self.old)) paper.now) }
        ensures tallies { tallies_of self.new
            ≡ tallies_after (tallies_of self.old) (P.meaning (pile_of self.old)) paper.now }
        ensures law { let meaning = P.meaning (pile_of self.old) in
            FilingLaw meaning paper.now (judged meaning paper.now) }
    {
        let read = read_paper(paper);
        // a test, as `inspect_err` does not say that on `Ok` its closure is not called
        if read.is_err() {
            self.tallies.count(None, false);
        }
        let paper = read?;
        let claim = weigh(&self.pile, &paper);
        self.tallies.count(Some(paper.kind()), claim.is_ok());
        self.ends = self.ends.after(claim?);
        Ok(self.ends)
    }
}
