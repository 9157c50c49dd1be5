// What a paper that was read shows of a transducer.
ghost use Rattle.std.specs.Prelude.{◌≡◌};
ghost use Rattle.papers.specs.Paper.{held};
ghost use Rattle.rules.specs.Filing.{weighed};

use crate::fault::DocketFault;
use crate::width::{Claim, Width};
use papers::{Kind, Paper};
use transducers::Transducer;

// A paper beside the pile that it speaks of. Each rule is a method, in the file of its subject.
#[derive_where(Clone, Copy)]
pub(crate) struct Weighing<'a, P> {
    pub(crate) pile: &'a P,
    pub(crate) paper: &'a Paper<'a>,
}

impl<P: Transducer> Weighing<'_, P> {
    // The claim of the paper, if it keeps the rule of its kind.
    fn claim(self) -> Result<Claim, DocketFault>
        ensures { result ≡ weighed (P.meaning self.entry.pile.now) (held self.entry.paper.now) }
    {
        match self.paper.kind() {
            Kind::Strip => {
                self.strip()?;
                Ok(Claim::Reaches(Width::Number(self.paper.len())))
            }
            Kind::Ring => {
                self.ring()?;
                Ok(Claim::Reaches(Width::Endless))
            }
            Kind::Ranking => {
                let height = self.ranking()?;
                Ok(Claim::Limits(Width::Number(u32::from(height))))
            }
            Kind::Torus => {
                self.torus()?;
                Ok(Claim::Reaches(Width::Endless))
            }
        }
    }
}

// The claim of a paper that keeps the rule of its kind, or its first fault.
pub fn weigh<P: Transducer>(pile: &P, paper: &Paper<'_>) -> Result<Claim, DocketFault>
    ensures { result ≡ weighed (P.meaning pile.now) (held paper.now) }
{
    Weighing { pile, paper }.claim()
}
