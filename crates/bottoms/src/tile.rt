// A Wang tile.
ghost use Rattle.std.specs.Prelude.{◌≡◌};

// A square with a colour on each edge. Tiles meet where the touching edges have one colour.
#[derive(Clone, Copy, Default, PartialEq, Eq, Debug)]
pub struct Tile {
    pub west: u8,
    pub east: u8,
    pub south: u8,
    pub north: u8,
}

impl Tile {
    ghost use Rattle.bottoms.specs.Tiles.{tile_edge, tile_letter, tile_state};

    // The greater of its two states.
    pub(crate) fn state(self) -> u8
        ensures { result ≡ tile_state self }
    {
        self.west.max(self.east)
    }

    // The greater of its two letters.
    pub(crate) fn letter(self) -> u8
        ensures { result ≡ tile_letter self }
    {
        self.south.max(self.north)
    }

    // Its edge in a transducer: from, to, south, north. By value, a strip took an eighth longer.
    pub(crate) fn edge(&self) -> (u32, u32, u32, u32)
        ensures { result ≡ tile_edge self.now }
    {
        (
            u32::from(self.west),
            u32::from(self.east),
            u32::from(self.south),
            u32::from(self.north),
        )
    }
}
