// The block reader, which stands alone: it needs nothing of the paper around the block.
ghost use Rattle.std.specs.Prelude.{◌≡◌, ◌↔◌, IsTrue};
ghost use Rattle.papers.specs.Form.{BlockLaw, CountFits};
ghost use Rattle.papers.specs.Block.{block_of};

use crate::bytes::BlockBytes;
use crate::fault::BlockFault;
use crate::kind::Kind;

/// How many bytes a block is.
pub const BLOCK_BYTES: usize = 512;

/// How many numbers a block has room for.
pub const BLOCK_NUMBERS: usize = 126;

// What a block says of itself: the paper's kind, and how many numbers stand in it.
#[derive(Clone, Copy, PartialEq, Eq, Debug)]
pub struct Block {
    pub kind: Kind,
    pub count: u8,
}

fn count_fits(last: bool, count: u8) -> bool
    ensures { IsTrue result ↔ CountFits last count }
{
    if last {
        (1..=126).contains(&count)
    } else {
        count == 126
    }
}

// Reads one block at its due place, of its due kind (0: any), as the last of its paper or not.
// The due kind is a number and not a `Kind`, as the format has it: one that no kind has is answered with a fault.
pub fn read_block(bytes: &[u8], place: u16, kind: u8, last: bool) -> Result<Block, BlockFault>
    ensures answer { result ≡ block_of bytes.now place kind last }
    ensures law { BlockLaw bytes.now place kind last result }
{
    let bytes = bytes.as_array().ok_or(BlockFault::Length)?;
    let block = BlockBytes { bytes };
    if block.check() != block.weighted_sum() {
        return Err(BlockFault::Check(place));
    }
    if block.place() != place {
        return Err(BlockFault::Place(place));
    }
    let kind = block.kind_due(kind).ok_or(BlockFault::Kind(place))?;
    let count = block.count();
    if !count_fits(last, count) {
        return Err(BlockFault::Count(place));
    }
    if !block.is_padded() {
        return Err(BlockFault::Padding(place));
    }
    Ok(Block { kind, count })
}
