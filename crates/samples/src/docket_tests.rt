// Excerpts, and the worked example, through the library.
use bottoms::Tile;
use piles::{PileKind, SetDocket};
use reports::{Refusal, excerpt};
use rules::{DocketFault, Width};
use setgrammar::{Position, TextFault};
use std::test::Fail;

#[test]
fn shows_the_line(rt: HostRuntime) {
    let at = Position { line: 2, column: 9 };
    let refusal = Refusal::Set(TextFault::Range(at));
    assert_eq!(rt;
        excerpt(b"p 1\nt 0 0 0 256\n", &[], refusal),
        b"t 0 0 0 256".as_slice()
    );
}

#[test]
fn shows_the_number(rt: HostRuntime) {
    let mut paper = [0; 1024];
    paper[516] = 7;
    let refusal = Refusal::Paper(DocketFault::NoEdge(126));
    assert_eq!(rt; excerpt(&[], &paper, refusal), [7, 0, 0, 0].as_slice());
    assert_eq!(rt; excerpt(&[], &paper[0..512], refusal), [].as_slice());
}

fn tile(west: u8, east: u8) -> Tile {
    Tile {
        west,
        east,
        ..Tile::default()
    }
}

// A block of one byte each for the kind, the count, two numbers and the check.
fn small_paper(kind: u8, count: u8, first: u8, second: u8, check: u8) -> [u8; 512] {
    let mut paper = [0; 512];
    paper[2] = kind;
    paper[3] = count;
    paper[4] = first;
    paper[8] = second;
    paper[508] = check;
    paper
}

#[test]
fn judges_the_example(rt: HostRuntime) -> Result<(), Fail> {
    let tiles = [tile(0, 1), tile(1, 2)];
    let mut docket = SetDocket::over_tiles(rt.alloc(), PileKind::Plain, &tiles)?;
    let strip = small_paper(1, 2, 0, 1, 20);
    let ranking = small_paper(3, 3, 2, 1, 40);
    let ends = docket.file(&strip)?;
    assert_eq!(rt; ends.floor, Width::Number(2));
    assert_eq!(rt; ends.ceiling, Width::Endless);
    let ends = docket.file(&ranking)?;
    assert_eq!(rt; ends.floor, Width::Number(2));
    assert_eq!(rt; ends.ceiling, Width::Number(2));
    Ok(())
}

#[test]
fn turns_down_what_is_no_paper(rt: HostRuntime) -> Result<(), Fail> {
    let tiles = [tile(0, 1), tile(1, 2)];
    let mut docket = SetDocket::over_tiles(rt.alloc(), PileKind::Plain, &tiles)?;
    let overlong = vec![in rt.alloc(); 0u8; 33280]?;
    let broken = small_paper(1, 2, 0, 1, 21);
    for paper in [&[], &overlong[0..511], &overlong[0..33280]] {
        assert_eq!(rt; docket.file(paper).map_err(DocketFault::number), Err(11));
    }
    assert_eq!(rt; docket.file(&broken).map_err(DocketFault::number), Err(12));
    Ok(())
}
