// The catalogue's table of multipliers.
ghost use Rattle.std.specs.Prelude.{◌≡◌, if◌then◌else◌, Some, None};
ghost use Rattle.bottoms.specs.Catalogue.{is_row, table_row};

// A row: the numerator and the denominator of the multiplier, its least and its greatest letter.
#[derive(Clone, Copy, PartialEq, Eq, Debug)]
pub struct Multiplier {
    pub p: u32,
    pub d: u32,
    pub low: u32,
    pub high: u32,
}

const ROWS: [Multiplier; 8] = [
    Multiplier {
        p: 2,
        d: 1,
        low: 1,
        high: 4,
    },
    Multiplier {
        p: 2,
        d: 3,
        low: 1,
        high: 4,
    },
    Multiplier {
        p: 1,
        d: 2,
        low: 1,
        high: 4,
    },
    Multiplier {
        p: 1,
        d: 3,
        low: 1,
        high: 4,
    },
    Multiplier {
        p: 3,
        d: 1,
        low: 1,
        high: 4,
    },
    Multiplier {
        p: 3,
        d: 2,
        low: 1,
        high: 4,
    },
    Multiplier {
        p: 1,
        d: 1,
        low: 0,
        high: 1,
    },
    Multiplier {
        p: 4,
        d: 3,
        low: 0,
        high: 3,
    },
];

// Row 1 to 8 of the table, by its number in the texts. Any number may be asked for.
pub fn multiplier_in(row: u8) -> Option<Multiplier>
    ensures { result ≡ (if is_row row then Some (table_row row) else None) }
{
    let index = row.checked_sub(1)?;
    ROWS.get(usize::from(index)).copied()
}
