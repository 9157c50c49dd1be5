// The list transducer: a list of tiles that it owns.
ghost use Rattle.std.specs.Prelude.{◌≡◌, ◌+◌, ◌≤◌, vec_len};
ghost use Rattle.bottoms.specs.Tiles.{greatest, list_meaning, tile_letter, tile_state};

use crate::fault::ListFault;
use crate::tile::Tile;
use std::alloc::Global;
use transducers::Transducer;

// The most tiles of a list.
pub const MOST_TILES: usize = 1024;

// Slot i is tile i.
#[derive(Drop)]
pub struct ListTransducer {
    tiles: Vec<Tile>,
    states: u32,
    letters: u32,
    ghost some_tile: { 1 ≤ vec_len tiles },
    ghost few_tiles: { vec_len tiles ≤ 1024 },
    ghost states_are: { states ≡ greatest tile_state tiles.items + 1 },
    ghost few_states: { states ≤ 256 },
    ghost letters_are: { letters ≡ greatest tile_letter tiles.items + 1 },
    ghost few_letters: { letters ≤ 256 },
}

// The greatest state and the greatest letter of the tiles.
#[tactic(auto, using(crate::specs::Greatest::greatest_drop, crate::specs::Greatest::greatest_none))]
fn greatest_of(tiles: &[Tile]) -> (u8, u8)
    ensures state { result.0 ≡ greatest tile_state tiles.now }
    ensures letter { result.1 ≡ greatest tile_letter tiles.now }
{
    let mut state = 0;
    let mut letter = 0;
    for tile in tiles {
        state = tile.state().max(state);
        letter = tile.letter().max(letter);
    }
    (state, letter)
}

impl ListTransducer {
    ghost use Rattle.bottoms.specs.Made.{ListMade};

    // A transducer of the caller's tiles, which it copies.
    #[tactic(auto, using(crate::specs::Greatest::one_more))]
    pub fn new(heap: Global, tiles: &[Tile]) -> Result<ListTransducer, ListFault>
        ensures { ListMade tiles.now result }
    {
        if tiles.is_empty() || tiles.len() > MOST_TILES {
            return Err(ListFault::Length);
        }
        let (state, letter) = greatest_of(tiles);
        Ok(ListTransducer {
            tiles: Vec::from_slice(heap, tiles)?,
            states: u32::from(state) + 1,
            letters: u32::from(letter) + 1,
        })
    }
}

impl Transducer for ListTransducer {
    ghost use Rattle.bottoms.specs.ListValid.{list_valid};
    ghost use Rattle.bottoms.specs.Made.{tiles_of};

    ghost meaning = { λ t. list_meaning (tiles_of t) };

    ghost valid = { list_valid };

    fn states(&self) -> u32 {
        self.states
    }

    fn letters(&self) -> u32 {
        self.letters
    }

    fn slots(&self) -> u32 {
        // At most 1,024, so it fits.
        self.tiles.len() as u32
    }

    fn slot(&self, i: u32) -> Option<(u32, u32, u32, u32)> {
        // Rust has no From from u32 to usize.
        self.tiles.get(i as usize).map(|tile| tile.edge())
    }
}
