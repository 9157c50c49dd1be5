// The samples of the format.
use bottoms::Tile;
use setgrammar::{Position, SetText, TextFault};
use settext::read_set;
use std::test::Fail;

#[test]
fn takes_two_tiles(rt: HostRuntime) -> Result<(), Fail> {
    let mut tiles = [Tile::default(); 2];
    assert_eq!(rt;
        read_set(b"p 1\nt 0 1 0 0\nt 1 2 0 0\n", &mut tiles)?.tiles,
        2
    );
    assert_eq!(rt; tiles[0].east, 1);
    assert_eq!(rt; tiles[1].east, 2);
    Ok(())
}

#[test]
fn takes_a_row(rt: HostRuntime) -> Result<(), Fail> {
    let set = SetText {
        pile: 6,
        row: 8,
        tiles: 0,
    };
    assert_eq!(rt; read_set(b"# a row\np 6\n\nf 8\n", &mut [])?, set);
    Ok(())
}

#[test]
fn colours_end_at_255(rt: HostRuntime) -> Result<(), Fail> {
    let mut tiles = [Tile::default(); 1];
    assert_eq!(rt; read_set(b"p 1\nt 0 0 0 255\n", &mut tiles)?.tiles, 1);
    let at = Position { line: 2, column: 9 };
    assert_eq!(rt;
        read_set(b"p 1\nt 0 0 0 256\n", &mut tiles),
        Err(TextFault::Range(at))
    );
    Ok(())
}
