// Rankings: a rank for each state, which falls along every edge.
ghost use Rattle.std.specs.Prelude.{◌≡◌, length, slice_index};
ghost use Rattle.papers.specs.First.{answered, first};
ghost use Rattle.rules.specs.Ranks.{height, rank_fits, ranking, slot_falls};
ghost use Rattle.rules.specs.Weighing.{numbers_of};

use crate::fault::DocketFault;
use crate::first::first_fault;
use crate::judging::Weighing;
use transducers::Transducer;

impl<P: Transducer> Weighing<'_, P> {
    // The rank of a state, which is at most 65,535.
    fn rank_of(self, state: u32) -> Result<u16, DocketFault>
        ensures { result
            ≡ answered (rank_fits (numbers_of self.entry) state) (slice_index (numbers_of self.entry) state) }
    {
        u16::try_from(self.paper.number(state)).map_err(|_| DocketFault::HighRank(state))
    }

    // The greatest rank.
    fn highest_rank(self) -> Result<u16, DocketFault>
        ensures { result
            ≡ answered (first (rank_fits (numbers_of self.entry)) (length (numbers_of self.entry)))
            (height (numbers_of self.entry)) }
    {
        let mut high = 0;
        for state in 0..self.paper.len() {
            high = self.rank_of(state)?.max(high);
        }
        Ok(high)
    }

    // The rank falls along the edge in slot i, if there is one.
    fn fall_in(self, i: u32) -> Result<(), DocketFault>
        ensures { result ≡ slot_falls (P.meaning self.entry.pile.now) (numbers_of self.entry) i }
    {
        let Some((from, to, _, _)) = self.pile.slot(i) else {
            return Ok(());
        };
        if from == to || self.paper.number(to) >= self.paper.number(from) {
            return Err(DocketFault::NoFall(i));
        }
        Ok(())
    }

    // The rule of a ranking; it answers the height.
    pub(crate) fn ranking(self) -> Result<u16, DocketFault>
        ensures { result
            ≡ answered (ranking (P.meaning self.entry.pile.now) (numbers_of self.entry))
            (height (numbers_of self.entry)) }
    {
        if self.paper.len() != self.pile.states() {
            return Err(DocketFault::RankCount);
        }
        let height = self.highest_rank()?;
        first_fault(self.pile.slots(), |i| self.fall_in(i))?;
        Ok(height)
    }
}
