// Rows of cells: walks in the transducer's graph, and closed walks.
ghost use Rattle.std.specs.Prelude.{◌≡◌, ◌+◌, ◌<◌, Ok, Err, MatchResult};
ghost use Rattle.rules.specs.Rows.{cell, cell_meets, closed_row, ring, row, strip};
ghost use Rattle.rules.specs.Walks.{GoesOn, IsWalk, state_of};
ghost use Rattle.rules.specs.Weighing.{numbers_of};

use crate::fault::DocketFault;
use crate::judging::Weighing;
use transducers::Transducer;

// The state that a walk left, and the state that it is in.
#[derive(Clone, Copy)]
struct Walk {
    origin: u32,
    state: u32,
}

impl<P: Transducer> Weighing<'_, P> {
    // The edge that the cell at a place names.
    pub(crate) fn edge_at(self, place: u32) -> Option<(u32, u32, u32, u32)>
        ensures { result ≡ cell (P.meaning self.entry.pile.now) (numbers_of self.entry) place }
    {
        self.pile.slot(self.paper.number(place))
    }

    // A walk with one cell more, which leaves the state that the walk is in.
    fn step(self, place: u32, walk: Option<Walk>) -> Result<Walk, DocketFault>
        ensures { MatchResult result
            (GoesOn (P.meaning self.entry.pile.now) (numbers_of self.entry) place walk)
            (λ f. cell_meets (cell (P.meaning self.entry.pile.now) (numbers_of self.entry) place) (state_of walk) place
            ≡ Err f) }
    {
        // `ok_or` and `?` take a strip a twentieth longer.
        let Some((from, to, _, _)) = self.edge_at(place) else {
            return Err(DocketFault::NoEdge(place));
        };
        match walk {
            None => Ok(Walk {
                origin: from,
                state: to,
            }),
            Some(walk) if walk.state == from => Ok(Walk { state: to, ..walk }),
            Some(_) => Err(DocketFault::Apart(place)),
        }
    }

    // The walk along the row of so many cells at a place; none along no cells.
    fn walk_row(self, start: u32, width: u32) -> Result<Option<Walk>, DocketFault>
        requires { start + width < 4294967296 }
        ensures { MatchResult result
            (λ walk. (row (P.meaning self.entry.pile.now) (numbers_of self.entry) start width ≡ Ok tt)
            × IsWalk (P.meaning self.entry.pile.now) (numbers_of self.entry) start width walk)
            (λ f. row (P.meaning self.entry.pile.now) (numbers_of self.entry) start width ≡ Err f) }
    {
        let mut walk = None;
        for place in start..start + width {
            walk = Some(self.step(place, walk)?);
        }
        Ok(walk)
    }

    // The rule of a strip: a walk.
    pub(crate) fn strip(self) -> Result<(), DocketFault>
        ensures { result ≡ strip (P.meaning self.entry.pile.now) (numbers_of self.entry) }
    {
        self.walk_row(0, self.paper.len())?;
        Ok(())
    }

    // A row that closes.
    pub(crate) fn close_row(self, start: u32, width: u32) -> Result<(), DocketFault>
        requires { start + width < 4294967296 }
        ensures { result ≡ closed_row (P.meaning self.entry.pile.now) (numbers_of self.entry) start width }
    {
        match self.walk_row(start, width)? {
            Some(walk) if walk.state != walk.origin => Err(DocketFault::Open(start + width - 1)),
            _ => Ok(()),
        }
    }

    // The rule of a ring: a closed walk.
    pub(crate) fn ring(self) -> Result<(), DocketFault>
        ensures { result ≡ ring (P.meaning self.entry.pile.now) (numbers_of self.entry) }
    {
        self.close_row(0, self.paper.len())
    }
}
