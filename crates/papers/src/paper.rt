// A paper that was read. It lends the caller's bytes, and copies nothing.
ghost use Rattle.std.specs.Prelude.{◌≡◌, ◌*◌, ◌≤◌, length, slice_index};
ghost use Rattle.papers.specs.Blocks.{blocks};

use crate::block::{BLOCK_BYTES, BLOCK_NUMBERS};
use crate::bytes::BlockBytes;
use crate::kind::Kind;

mod read;

pub use read::read_paper;

// Its kind, its bytes, and how many numbers they hold. The last block's bytes may hold zeros past the count.
#[derive(Clone, Copy, PartialEq, Eq, Debug)]
pub struct Paper<'a> {
    bytes: &'a [u8],
    kind: Kind,
    count: u16,
    ghost within: { count ≤ 126 * blocks bytes.now },
}

impl Paper<'_> {
    ghost use Rattle.papers.specs.Paper.{held};

    pub fn kind(&self) -> Kind
        ensures { result ≡ (held self.now).kind }
    {
        self.kind
    }

    // How many numbers the paper holds.
    pub fn len(&self) -> u32
        ensures { result ≡ length (held self.now).numbers }
    {
        u32::from(self.count)
    }

    // The number at a place, 0 past the last: callers are promised a number for every place.
    pub fn number(&self, place: u32) -> u32
        ensures { result ≡ slice_index (held self.now).numbers place }
    {
        if place >= u32::from(self.count) {
            return 0;
        }
        // There is no `From` of `u32` for `usize`.
        let place = place as usize;
        let (blocks, _) = self.bytes.as_chunks::<BLOCK_BYTES>();
        let block = BlockBytes {
            bytes: &blocks[place / BLOCK_NUMBERS],
        };
        block.number(place % BLOCK_NUMBERS)
    }
}
