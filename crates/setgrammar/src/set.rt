// What a set text says.

// The pile, from 1 to 6, and either a row of the catalogue, from 1 to 8, or row 0 and so many tiles.
// Plain numbers, with 0 for no row, are the answer that callers are promised.
#[derive(Clone, Copy, PartialEq, Eq, Debug)]
pub struct SetText {
    pub pile: u8,
    pub row: u8,
    pub tiles: u16,
}
