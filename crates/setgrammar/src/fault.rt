// Where a text stops being a set text, and why.
ghost use Rattle.std.specs.Prelude.{◌≡◌};

// A byte of a text by its line and its column, both counted from 1.
#[derive(Clone, Copy, PartialEq, Eq, Debug)]
pub struct Position {
    pub line: u32,
    pub column: u32,
}

// The first fault of a text.
#[derive(Clone, Copy, PartialEq, Eq, Debug)]
pub enum TextFault {
    // no kind of line starts so
    Start(Position),
    // the line's form does not have this byte here
    Byte(Position),
    // a number outside its range
    Range(Position),
    // a line out of turn
    Turn(Position),
    // a tile line, and no room for its tile
    Full(Position),
    // the text ends inside a line, or before the set is complete
    Ends(Position),
    // more than 65,535 bytes
    Long,
}

impl TextFault {
    ghost use Rattle.setgrammar.specs.Faults.{fault_column, fault_line, fault_number, fault_position};

    pub fn number(self) -> u8
        ensures { result ≡ fault_number self }
    {
        match self {
            TextFault::Start(_) => 1,
            TextFault::Byte(_) => 2,
            TextFault::Range(_) => 3,
            TextFault::Turn(_) => 4,
            TextFault::Full(_) => 5,
            TextFault::Ends(_) => 6,
            TextFault::Long => 7,
        }
    }

    // Where the fault is, unless the text is too long.
    pub fn position(self) -> Option<Position>
        ensures { result ≡ fault_position self }
    {
        match self {
            TextFault::Start(at)
            | TextFault::Byte(at)
            | TextFault::Range(at)
            | TextFault::Turn(at)
            | TextFault::Full(at)
            | TextFault::Ends(at) => Some(at),
            TextFault::Long => None,
        }
    }

    // The fault's line, 0 where the text is too long.
    pub fn line(self) -> u32
        ensures { result ≡ fault_line self }
    {
        self.position().map_or(0, |at| at.line)
    }

    // The fault's column, 0 where the text is too long.
    pub fn column(self) -> u32
        ensures { result ≡ fault_column self }
    {
        self.position().map_or(0, |at| at.column)
    }
}
