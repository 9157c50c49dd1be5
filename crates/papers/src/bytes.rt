// What stands where in a block's bytes. Numbers stand least byte first.
ghost use Rattle.std.specs.Prelude.{◌≡◌, ◌+◌, ◌<◌, ◌≤◌, length, take, MatchOption};
ghost use Rattle.std.specs.Bool.{MatchBool};
ghost use Rattle.papers.specs.Block.{block_number, count_byte, kind_byte};
ghost use Rattle.papers.specs.Bytes.{half, weighted, word};
ghost use Rattle.papers.specs.Form.{HasDueKind, KindFits, NotPadded, Padded};

use crate::block::{BLOCK_BYTES, BLOCK_NUMBERS};
use crate::kind::Kind;
use std::ops::Range;

// The bytes of one block.
#[derive(Clone, Copy)]
pub(crate) struct BlockBytes<'a> {
    pub(crate) bytes: &'a [u8; BLOCK_BYTES],
}

impl BlockBytes<'_> {
    pub(crate) fn place(&self) -> u16
        ensures { result ≡ half self.now.bytes.now 0 }
    {
        u16::from_le_bytes([self.bytes[0], self.bytes[1]])
    }

    // The kind that it says, if that is the due one. The due kind is a number as the format has it, 0 for any.
    pub(crate) fn kind_due(&self, due: u8) -> Option<Kind>
        ensures { MatchOption result (¬ KindFits due (kind_byte self.now.bytes.now)) (HasDueKind self.now.bytes.now due) }
    {
        Kind::try_from(self.bytes[2])
            .ok()
            .filter(|&kind| due == 0 || due == kind.into())
    }

    pub(crate) fn count(&self) -> u8
        ensures { result ≡ count_byte self.now.bytes.now }
    {
        self.bytes[3]
    }

    pub(crate) fn number(&self, i: usize) -> u32
        requires { i < BLOCK_NUMBERS }
        ensures { result ≡ block_number self.now.bytes.now i }
    {
        self.word(4 + 4 * i)
    }

    // The places past the count.
    fn padding(&self) -> Range<usize>
        ensures { result ≡ record { start = count_byte self.now.bytes.now; end = BLOCK_NUMBERS } }
    {
        usize::from(self.count())..BLOCK_NUMBERS
    }

    // Whether each number past the count is 0.
    pub(crate) fn is_padded(&self) -> bool
        ensures { MatchBool result (Padded self.now.bytes.now) (NotPadded self.now.bytes.now) }
    {
        self.padding().all(|i| self.number(i) == 0)
    }

    // The check that stands in the block.
    pub(crate) fn check(&self) -> u32
        ensures { result ≡ word self.now.bytes.now 508 }
    {
        self.word(508)
    }

    // The bytes before the check.
    fn checked(&self) -> &[u8]
        ensures value { result.now ≡ take 508 self.now.bytes.now }
        ensures len { length result.now ≡ 508 }
    {
        let bytes = self.bytes;
        &bytes[..508]
    }

    // The check that it should have: the sum over those bytes of (i + 1) × byte i.
    pub(crate) fn weighted_sum(&self) -> u32
        ensures { result ≡ weighted self.now.bytes.now 508 }
    {
        let mut sum = 0;
        for (byte, weight) in self.checked().iter().zip(1..) {
            sum += weight * u32::from(*byte);
        }
        sum
    }

    // The number of 32 bits at a place.
    fn word(&self, at: usize) -> u32
        requires { at + 4 ≤ BLOCK_BYTES }
        ensures { result ≡ word self.now.bytes.now at }
    {
        let bytes = self.bytes;
        u32::from_le_bytes(*bytes[at..].first_chunk().unwrap())
    }
}
