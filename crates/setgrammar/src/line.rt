// The kinds of lines, and how far a reader has come in their order.

// The kind of a line, which its first character says. A reader matches it together with its stage.
#[derive(Clone, Copy, PartialEq, Eq, Debug)]
pub enum LineKind {
    // the number of the pile
    Pile,
    // the number of a row of the catalogue
    Row,
    // a tile
    Tile,
    // anything at all
    Note,
    // nothing
    Blank,
}

// What the lines so far have said.
#[derive(Clone, Copy, PartialEq, Eq, Debug)]
pub enum Stage {
    // nothing
    Empty,
    // the pile
    Piled(u8),
    // the pile and the row
    Rowed(u8, u8),
    // the pile and so many tiles
    Tiled(u8, u16),
}
