// Reading set texts.
use bottoms::{MOST_TILES, Tile};
use setgrammar::{SetText, TextFault};
use settext::read_set;
use std::alloc::Global;

// A set text that was read, and a list that begins with its tiles.
#[derive(Drop)]
pub(crate) struct ReadSet {
    pub(crate) set: SetText,
    pub(crate) tiles: Vec<Tile>,
}

// The set of a text, or none where the text is refused or there is no memory.
pub(crate) fn set_of(heap: Global, text: &[u8]) -> Option<ReadSet> {
    let mut tiles = vec![in heap; Tile::default(); MOST_TILES].ok()?;
    let set = read_set(text, &mut tiles).ok()?;
    Some(ReadSet { set, tiles })
}

// What a reading answered, for C. Number 0 is taken; any other is the fault's, with its line and column.
// The sum is over the whole list of tiles. C has no Result, so the answer is flat.
#[repr(C)]
#[derive(Clone, Copy, Default)]
pub struct Reading {
    pub tiles: u32,
    pub number: u32,
    pub line: u32,
    pub column: u32,
    pub sum: u32,
}

fn reading_of(answer: Result<SetText, TextFault>, sum: u32) -> Reading {
    match answer {
        Ok(set) => Reading {
            tiles: u32::from(set.tiles),
            sum,
            ..Reading::default()
        },
        Err(fault) => Reading {
            number: u32::from(fault.number()),
            line: fault.line(),
            column: fault.column(),
            sum,
            ..Reading::default()
        },
    }
}

// A number that the tiles, in their order, give.
fn sum_of(tiles: &[Tile]) -> u32 {
    let mut sum: u32 = 0;
    for tile in tiles {
        let bytes = [tile.west, tile.east, tile.south, tile.north];
        sum = sum.wrapping_mul(31).wrapping_add(u32::from_le_bytes(bytes));
    }
    sum
}

// Reads a set text so many times, and once more for what it answers. It answers whether there was memory for the tiles.
#[unsafe(no_mangle)]
pub extern "C" fn bench_read(heap: Global, text: &[u8], times: u32, reading: &mut Reading) -> bool {
    let Ok(mut tiles) = vec![in heap; Tile::default(); MOST_TILES] else {
        return false;
    };
    for _ in 1..times {
        let _ = read_set(text, &mut tiles);
    }
    let last = read_set(text, &mut tiles);
    *reading = reading_of(last, sum_of(&tiles));
    true
}
