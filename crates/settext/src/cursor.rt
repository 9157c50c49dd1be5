// A place in a text: reads it byte by byte, by the items of its lines, and line by line.
ghost use Rattle.std.specs.Prelude.{◌≡◌, ◌+◌, ◌*◌, ◌<◌, ◌≤◌, false, length, IfOk};
ghost use Rattle.std.specs.Range.{range_inclusive_end, range_inclusive_exhausted, range_inclusive_start};
ghost use Rattle.setgrammar.specs.Place.{start_of, after, byte_at};
ghost use Rattle.setgrammar.specs.Items.{expect_at, digit_at, digit_next, more_at, note_at, field_at};
ghost use Rattle.setgrammar.specs.Lines.{kind_at, number_line_at, tile_line_at};

use bottoms::Tile;
use setgrammar::{LineKind, Position, TextFault};
use std::ops::RangeInclusive;

// What is left of a text, and where it starts.
#[derive(Drop)]
pub(crate) struct Cursor<'a> {
    pub(crate) rest: &'a [u8],
    pub(crate) at: Position,
    ghost short: { (at.line + length rest.now ≤ 65536) × (at.column + length rest.now ≤ 65536) },
}

// The position after a byte.
fn after_byte(at: Position, byte: u8) -> Position
    requires { (at.line < 65536) × (at.column < 65536) }
    ensures { result ≡ after at byte }
{
    if byte == b'\n' {
        Position {
            line: at.line + 1,
            column: 1,
        }
    } else {
        Position {
            column: at.column + 1,
            ..at
        }
    }
}

impl<'a> Cursor<'a> {
    ghost use Rattle.settext.specs.Cursors.{here, reading};

    pub(crate) fn new(text: &'a [u8]) -> Cursor<'a>
        requires { length text.now ≤ 65535 }
        ensures { here result ≡ start_of text.now }
    {
        Cursor {
            rest: text,
            at: Position { line: 1, column: 1 },
        }
    }

    // The next byte, which the text has to have.
    fn byte(&mut self) -> Result<u8, TextFault>
        ensures { reading result self.new ≡ byte_at (here self.old) }
    {
        let [byte, rest @ ..] = self.rest else {
            return Err(TextFault::Ends(self.at));
        };
        self.at = after_byte(self.at, *byte);
        self.rest = rest;
        Ok(*byte)
    }

    // This byte and no other.
    fn expect(&mut self, due: u8) -> Result<(), TextFault>
        ensures { reading result self.new ≡ expect_at due (here self.old) }
    {
        let at = self.at;
        if self.byte()? != due {
            return Err(TextFault::Byte(at));
        }
        Ok(())
    }

    fn digit(&mut self) -> Result<u8, TextFault>
        ensures reads { reading result self.new ≡ digit_at (here self.old) }
        ensures small { IfOk result (λ d. d ≤ 9) }
    {
        let at = self.at;
        match self.byte()? {
            byte @ b'0'..=b'9' => Ok(byte - b'0'),
            _ => Err(TextFault::Byte(at)),
        }
    }

    fn at_digit(&self) -> bool
        ensures { result ≡ digit_next self.now.rest.now }
    {
        self.rest.first().is_some_and(|byte| byte.is_ascii_digit())
    }

    // A number goes on with the next digit, unless it is 0.
    fn more(&mut self, number: u16) -> Result<u16, TextFault>
        requires { number ≤ 99 }
        ensures reads { reading result self.new ≡ more_at number (here self.old) }
        ensures small { IfOk result (λ n. n ≤ 10 * number + 9) }
    {
        if number > 0 && self.at_digit() {
            return Ok(10 * number + u16::from(self.digit()?));
        }
        Ok(number)
    }

    // A space, and a number of at most three digits in the range. What `contains` says of a range depends on whether it
    // was iterated.
    fn field(&mut self, range: RangeInclusive<u8>) -> Result<u8, TextFault>
        requires { range_inclusive_exhausted range ≡ false }
        ensures { reading result self.new
            ≡ field_at (range_inclusive_start range) (range_inclusive_end range) (here self.old) }
    {
        self.expect(b' ')?;
        let at = self.at;
        let first = u16::from(self.digit()?);
        let second = self.more(first)?;
        let number = self.more(second)?;
        u8::try_from(number)
            .ok()
            .filter(|number| range.contains(number))
            .ok_or(TextFault::Range(at))
    }

    // The line's kind, by its first byte.
    pub(crate) fn kind(&mut self) -> Result<LineKind, TextFault>
        ensures { reading result self.new ≡ kind_at (here self.old) }
    {
        let at = self.at;
        match char::from(self.byte()?) {
            'p' => Ok(LineKind::Pile),
            'f' => Ok(LineKind::Row),
            't' => Ok(LineKind::Tile),
            '#' => Ok(LineKind::Note),
            '\n' => Ok(LineKind::Blank),
            _ => Err(TextFault::Start(at)),
        }
    }

    // The rest of a line of one number.
    pub(crate) fn number_line(&mut self, range: RangeInclusive<u8>) -> Result<u8, TextFault>
        requires { range_inclusive_exhausted range ≡ false }
        ensures { reading result self.new
            ≡ number_line_at (range_inclusive_start range) (range_inclusive_end range) (here self.old) }
    {
        let number = self.field(range)?;
        self.expect(b'\n')?;
        Ok(number)
    }

    // The rest of a line of a tile.
    pub(crate) fn tile_line(&mut self) -> Result<Tile, TextFault>
        ensures { reading result self.new ≡ tile_line_at (here self.old) }
    {
        let west = self.field(0..=255)?;
        let east = self.field(0..=255)?;
        let south = self.field(0..=255)?;
        let north = self.field(0..=255)?;
        self.expect(b'\n')?;
        Ok(Tile {
            west,
            east,
            south,
            north,
        })
    }

    // Any bytes up to a line feed, and the line feed.
    #[tactic(auto, unfolding(setgrammar::specs::Items::note_from))]
    pub(crate) fn note(&mut self) -> Result<(), TextFault>
        ensures { reading result self.new ≡ note_at (here self.old) }
    {
        while self.byte()? != b'\n' {}
        Ok(())
    }
}
