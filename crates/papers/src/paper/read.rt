// The paper reader. A paper lends the caller's bytes, and copies nothing.
ghost use Rattle.std.specs.Prelude.{◌≡◌, ◌≤◌, ◌↔◌, IsTrue, IsSome, IfSome};
ghost use Rattle.papers.specs.Form.{AreBlocks, ReadingLaw, WholeBlocks};
ghost use Rattle.papers.specs.Paper.{reading, contents_of};

use crate::block::{BLOCK_BYTES, read_block};
use crate::fault::PaperFault;
use crate::paper::Paper;

const MOST_BLOCKS: usize = 64;

fn is_block_count(blocks: usize) -> bool
    ensures { IsTrue result ↔ ((1 ≤ blocks) × (blocks ≤ 64)) }
{
    (1..=MOST_BLOCKS).contains(&blocks)
}

// The first block and the others, where the bytes are 1 to 64 whole blocks.
fn split_blocks(bytes: &[u8]) -> Option<(&[u8; BLOCK_BYTES], &[[u8; BLOCK_BYTES]])>
    ensures whole { IsSome result ↔ WholeBlocks bytes.now }
    ensures parts { IfSome result (λ parts. AreBlocks bytes.now parts.0.now parts.1.now) }
{
    let (blocks, rest) = bytes.as_chunks();
    if !rest.is_empty() || !is_block_count(blocks.len()) {
        return None;
    }
    blocks.split_first()
}

// Reads the bytes as a paper, or answers their first fault.
pub fn read_paper(bytes: &[u8]) -> Result<Paper<'_>, PaperFault>
    ensures answer { reading result ≡ contents_of bytes.now }
    ensures law { ReadingLaw bytes.now result }
{
    let (first, others) = split_blocks(bytes).ok_or(PaperFault::Length)?;
    let start = read_block(first, 0, 0, others.is_empty())?;
    let mut count = u16::from(start.count);
    for (place, block) in (1u16..).zip(others) {
        let last = usize::from(place) == others.len();
        let next = read_block(block, place, start.kind.into(), last)?;
        count += u16::from(next.count);
    }
    Ok(Paper {
        bytes,
        kind: start.kind,
        count,
    })
}
