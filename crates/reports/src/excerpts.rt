// The line, the block or the number that a refusal blames, as a part of the caller's bytes. Nothing is copied.
ghost use Rattle.std.specs.Prelude.{◌≡◌, ◌+◌, ◌*◌, ◌/◌, ◌%◌, ◌^◌, ◌<◌, ◌≤◌, ◌==◌, length, position, MatchOption};
ghost use Rattle.reports.specs.Excerpts.{blame_of, IsCut, LineStart, LineEnd, NoLine, IsBlamed, Excerpted, OnlyExcerpt};

use papers::{BLOCK_BYTES, BLOCK_NUMBERS, BlockFault};
use rules::DocketFault;
use setgrammar::TextFault;

// The fault that is to be shown. Both are faults, so a Result says no more.
#[derive(Clone, Copy, PartialEq, Eq, Debug)]
pub enum Refusal {
    // of a set text
    Set(TextFault),
    // of a paper
    Paper(DocketFault),
}

// What a refusal blames. Nothing is one of four: each has its own part, and an `Option` of three would say no more.
#[derive(Clone, Copy)]
enum Blame {
    // a line of the text, counted from 1
    Line(u32),
    // a block of the paper
    Block(u16),
    // the number at a place of the paper
    Number(u32),
    Nothing,
}

fn blamed(refusal: Refusal) -> Blame
    ensures { result ≡ blame_of refusal }
{
    match refusal {
        Refusal::Set(fault) => fault
            .position()
            .map_or(Blame::Nothing, |at| Blame::Line(at.line)),
        Refusal::Paper(DocketFault::Paper(fault)) => fault
            .block_fault()
            .and_then(BlockFault::block)
            .map_or(Blame::Nothing, Blame::Block),
        Refusal::Paper(
            DocketFault::HighRank(place)
            | DocketFault::NoEdge(place)
            | DocketFault::Apart(place)
            | DocketFault::Open(place)
            | DocketFault::ApartAbove(place),
        ) => Blame::Number(place),
        Refusal::Paper(_) => Blame::Nothing,
    }
}

// So many bytes from a byte on, or the empty front where they are not all there.
fn part(bytes: &[u8], start: usize, size: usize) -> &[u8]
    requires { start + size < 2 ^ 64 }
    ensures { IsCut bytes.entry start size result }
{
    // What `get` ensures does not say where its part stands.
    if start + size <= bytes.len() {
        &bytes[start..start + size]
    } else {
        &bytes[..0]
    }
}

// A block of a paper.
fn block_part(paper: &[u8], block: u16) -> &[u8]
    ensures { IsCut paper.entry (512 * block) 512 result }
{
    part(paper, BLOCK_BYTES * usize::from(block), BLOCK_BYTES)
}

// The four bytes of the number at a place of a paper.
fn number_part(paper: &[u8], place: u32) -> &[u8]
    ensures { IsCut paper.entry (512 * (place / 126) + 4 + 4 * (place % 126)) 4 result }
{
    // Rust has no From from u32 to usize.
    let place = place as usize;
    let block = BLOCK_BYTES * (place / BLOCK_NUMBERS);
    part(paper, block + 4 + 4 * (place % BLOCK_NUMBERS), 4)
}

// Where the first line feed stands.
fn first_feed(bytes: &[u8]) -> Option<usize>
    ensures { result ≡ position (λ b. b == 10) bytes.now }
{
    bytes.iter().position(|byte| *byte == b'\n')
}

// Where a line starts, if there are so many: the first at 0, any other after a line feed.
fn line_start(bytes: &[u8], line: u32) -> Option<usize>
    ensures { MatchOption result (NoLine bytes.now line) (λ s. LineStart bytes.now line s) }
{
    let mut start = 0;
    // Each turn passes one line feed.
    for _ in 0..line.checked_sub(1)? {
        start += first_feed(&bytes[start..])? + 1;
    }
    Some(start)
}

// Where the line that starts here ends: at its line feed, or at the end of the bytes.
fn line_end(bytes: &[u8], start: usize) -> usize
    requires { start ≤ length bytes.now }
    ensures { LineEnd bytes.now start result }
{
    first_feed(&bytes[start..]).map_or(bytes.len(), |size| start + size)
}

// The part that is blamed.
fn blamed_part<'a>(text: &'a [u8], paper: &'a [u8], blame: Blame) -> &'a [u8]
    ensures { IsBlamed text.entry paper.entry blame result }
{
    match blame {
        Blame::Line(line) => match line_start(text, line) {
            Some(start) => &text[start..line_end(text, start)],
            None => &paper[..0],
        },
        Blame::Block(block) => block_part(paper, block),
        Blame::Number(place) => number_part(paper, place),
        Blame::Nothing => &paper[..0],
    }
}

// What the refusal blames: a line of the text without its line feed, or a block or a number of the paper.
// It is empty, at the paper's start, where the refusal blames no part, or the text or the paper does not have it.
pub fn excerpt<'a>(text: &'a [u8], paper: &'a [u8], refusal: Refusal) -> &'a [u8]
    ensures part { Excerpted text.entry paper.entry refusal result }
    ensures only { OnlyExcerpt text.entry paper.entry refusal result }
{
    blamed_part(text, paper, blamed(refusal))
}
