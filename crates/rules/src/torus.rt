// Toruses: periodic tilings. Rows close, and each meets the row above; above the top row comes the bottom row.
ghost use Rattle.std.specs.Prelude.{◌≡◌, ◌+◌, ◌*◌, ◌<◌, ◌≤◌, true, false, MatchResult};
ghost use Rattle.papers.specs.First.{first};
ghost use Rattle.rules.specs.Torus.{above, fair_shape, fair_side, meets_above, torus, torus_row};
ghost use Rattle.rules.specs.Torus.{width as width_of, rows as rows_of};
ghost use Rattle.rules.specs.Weighing.{numbers_of};
ghost use Rattle.rules.specs.declared.fault.DocketFault.TheVariants.{Shape};

use crate::fault::DocketFault;
use crate::first::first_fault;
use crate::judging::Weighing;
use transducers::Transducer;

// A torus of a fair shape: so many rows of one width.
#[derive(Drop)]
struct Torus<'a, P> {
    weighing: Weighing<'a, P>,
    width: u32,
    rows: u32,
    ghost is_width: { width ≡ width_of (numbers_of weighing) },
    ghost is_rows: { rows ≡ rows_of (numbers_of weighing) },
    ghost few_columns: { width ≤ 8062 },
    ghost few_rows: { rows ≤ 8062 },
}

fn fair_side(n: u32) -> bool
    ensures { result ≡ fair_side n }
{
    (1..=8062).contains(&n)
}

impl<'a, P: Transducer> Torus<'a, P> {
    // The torus of a paper, if its width, row count and cells fit together.
    fn new(weighing: Weighing<'a, P>) -> Result<Torus<'a, P>, DocketFault>
        ensures { MatchResult result
            (λ t. (t.weighing ≡ weighing.entry) × (fair_shape (numbers_of weighing.entry) ≡ true))
            (λ f. (f ≡ Shape) × (fair_shape (numbers_of weighing.entry) ≡ false)) }
    {
        let paper = weighing.paper;
        let width = paper.number(0);
        let rows = paper.number(1);
        if paper.len() >= 3
            && fair_side(width)
            && fair_side(rows)
            && paper.len() == 2 + width * rows
        {
            Ok(Torus {
                weighing,
                width,
                rows,
            })
        } else {
            Err(DocketFault::Shape)
        }
    }

    // The cell above cell i.
    fn above(&self, i: u32) -> u32
        requires { i < self.now.width * self.now.rows }
        ensures { result ≡ above (numbers_of self.now.weighing) i }
    {
        let size = self.width * self.rows;
        let above = i + self.width;
        if above < size { above } else { above - size }
    }

    // Cell i meets the one above it.
    fn meet_above(&self, i: u32) -> Result<(), DocketFault>
        requires { i < self.now.width * self.now.rows }
        ensures { result
            ≡ meets_above (P.meaning self.now.weighing.pile.now) (numbers_of self.now.weighing) i }
    {
        let low = self.weighing.edge_at(2 + i);
        let high = self.weighing.edge_at(2 + self.above(i));
        match (low, high) {
            (Some((_, _, _, north)), Some((_, _, south, _))) if north == south => Ok(()),
            _ => Err(DocketFault::ApartAbove(2 + i)),
        }
    }

    // Row k closes.
    fn close_row(&self, k: u32) -> Result<(), DocketFault>
        requires { k < self.now.rows }
        ensures { result
            ≡ torus_row (P.meaning self.now.weighing.pile.now) (numbers_of self.now.weighing) k }
    {
        self.weighing.close_row(2 + k * self.width, self.width)
    }
}

impl<P: Transducer> Weighing<'_, P> {
    // The rule of a torus.
    pub(crate) fn torus(self) -> Result<(), DocketFault>
        ensures { result ≡ torus (P.meaning self.entry.pile.now) (numbers_of self.entry) }
    {
        let torus = Torus::new(self)?;
        first_fault(torus.rows, |k| torus.close_row(k))?;
        first_fault(torus.width * torus.rows, |i| torus.meet_above(i))
    }
}
