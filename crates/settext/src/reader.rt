// Reads a set text line by line.
ghost use Rattle.std.specs.Prelude.{◌≡◌, OnErr};
ghost use Rattle.setgrammar.specs.Law.{Law};
ghost use Rattle.setgrammar.specs.Lines.{tile_at, line_at, said, set_text};
ghost use Rattle.settext.specs.Cursors.{here};

use crate::cursor::Cursor;
use bottoms::{MOST_TILES, Tile};
use setgrammar::{LineKind, Position, SetText, Stage, TextFault};

const MOST_BYTES: usize = 65535;

// Where a reader stands, and what it has read.
#[derive(Drop)]
pub(crate) struct Reader<'a> {
    pub(crate) cursor: Cursor<'a>,
    pub(crate) stage: Stage,
}

impl Reader<'_> {
    ghost use Rattle.settext.specs.Readers.{state_of, stepped};

    // The rest of a tile line, whose tile comes after `count` others. The pile is a number as in the answer.
    fn tile(
        &mut self,
        pile: u8,
        count: u16,
        start: Position,
        tiles: &mut [Tile],
    ) -> Result<(), TextFault>
        ensures reads { stepped result self.new tiles.new
            ≡ tile_at pile count tiles.old start (here self.old.cursor) }
        ensures kept { OnErr result (tiles.new ≡ tiles.old) }
    {
        let place = usize::from(count);
        if place >= tiles.len().min(MOST_TILES) {
            return Err(TextFault::Full(start));
        }
        tiles[place] = self.cursor.tile_line()?;
        self.stage = Stage::Tiled(pile, count + 1);
        Ok(())
    }

    // One line, by its kind and by what the lines before it have said.
    fn line(&mut self, tiles: &mut [Tile]) -> Result<(), TextFault>
        ensures reads { stepped result self.new tiles.new
            ≡ line_at (state_of self.old tiles.old) (here self.old.cursor) }
        ensures kept { OnErr result (tiles.new ≡ tiles.old) }
    {
        let start = self.cursor.at;
        let kind = self.cursor.kind()?;
        match (self.stage, kind) {
            (_, LineKind::Blank) => {}
            (_, LineKind::Note) => self.cursor.note()?,
            (Stage::Empty, LineKind::Pile) => {
                self.stage = Stage::Piled(self.cursor.number_line(1..=6)?);
            }
            (Stage::Piled(pile), LineKind::Row) => {
                self.stage = Stage::Rowed(pile, self.cursor.number_line(1..=8)?);
            }
            (Stage::Piled(pile), LineKind::Tile) => self.tile(pile, 0, start, tiles)?,
            (Stage::Tiled(pile, count), LineKind::Tile) => self.tile(pile, count, start, tiles)?,
            _ => return Err(TextFault::Turn(start)),
        }
        Ok(())
    }

    // What the lines have said, at the end of the text.
    fn finish(&self) -> Result<SetText, TextFault>
        ensures { result ≡ said self.now.stage self.now.cursor.at }
    {
        match self.stage {
            Stage::Empty | Stage::Piled(_) => Err(TextFault::Ends(self.cursor.at)),
            Stage::Rowed(pile, row) => Ok(SetText {
                pile,
                row,
                tiles: 0,
            }),
            Stage::Tiled(pile, tiles) => Ok(SetText {
                pile,
                row: 0,
                tiles,
            }),
        }
    }
}

// Reads a set text. Its tiles go to the front of the list, each as soon as its line is read whole.
pub fn read_set(text: &[u8], tiles: &mut [Tile]) -> Result<SetText, TextFault>
    ensures answers { result ≡ (set_text text.now tiles.old).answer }
    ensures fills { tiles.new ≡ (set_text text.now tiles.old).tiles }
    ensures law { Law text.now tiles.old result tiles.new }
{
    if text.len() > MOST_BYTES {
        return Err(TextFault::Long);
    }
    let mut reader = Reader {
        cursor: Cursor::new(text),
        stage: Stage::Empty,
    };
    // A loop, since the reader advances in place.
    while !reader.cursor.rest.is_empty() {
        reader.line(tiles)?;
    }
    reader.finish()
}
