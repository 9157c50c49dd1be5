// The catalogue transducer: one row of the table of multipliers.
ghost use Rattle.std.specs.Prelude.{◌≡◌, ◌*◌, ◌<◌};
ghost use Rattle.bottoms.specs.Catalogue.{alphabet, carries, catalogue, multiplied};
ghost use Rattle.bottoms.specs.Multipliers.{Small, catalogue_valid};

use crate::fault::RowFault;
use crate::multiplier::{Multiplier, multiplier_in};
use transducers::Transducer;

// It multiplies by p / d, letter by letter; its states are the carries.
#[derive(Clone, Copy, PartialEq, Eq, Debug)]
pub struct CatalogueTransducer {
    row: Multiplier,
    ghost small: { Small row },
}

impl CatalogueTransducer {
    ghost use Rattle.bottoms.specs.CatalogueMade.{RowAnswered};

    // Row 1 to 8 of the catalogue, by its number in the texts. Any number may be asked for.
    pub fn new(row: u8) -> Result<CatalogueTransducer, RowFault>
        ensures { RowAnswered row result }
    {
        let row = multiplier_in(row).ok_or(RowFault)?;
        Ok(CatalogueTransducer { row })
    }

    // How many letters a cell may have.
    fn alphabet(&self) -> u32
        ensures { result ≡ alphabet self.now.row }
    {
        self.row.high - self.row.low + 1
    }

    fn carries(&self) -> u32
        ensures { result ≡ carries self.now.row }
    {
        self.row.p + self.row.d - 1
    }

    // The edge of a slot that is one of the row's.
    fn multiply(&self, i: u32) -> Option<(u32, u32, u32, u32)>
        requires { i < carries self.now.row * alphabet self.now.row * alphabet self.now.row }
        ensures { result ≡ multiplied self.now.row i }
    {
        let letters = self.alphabet();
        let west = i / letters / letters;
        let south = self.row.low + i / letters % letters;
        let north = self.row.low + i % letters;
        let product = self.row.p * south + west;
        let east = product.checked_sub(self.row.d * north)?;
        (east < self.carries()).then_some((west, east, south, north))
    }
}

impl Transducer for CatalogueTransducer {
    ghost meaning = { λ t. catalogue t.row };

    ghost valid = { λ t. catalogue_valid t.row t.small };

    fn states(&self) -> u32 {
        self.carries()
    }

    fn letters(&self) -> u32 {
        self.row.high + 1
    }

    fn slots(&self) -> u32 {
        self.carries() * self.alphabet() * self.alphabet()
    }

    fn slot(&self, i: u32) -> Option<(u32, u32, u32, u32)> {
        if i < self.slots() {
            self.multiply(i)
        } else {
            None
        }
    }
}
