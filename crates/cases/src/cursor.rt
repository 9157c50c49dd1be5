// A place in the bytes of the cases.

// Reads go on from the place; past the end there is nothing more.
#[derive(Drop)]
pub struct Cursor<'a> {
    rest: &'a [u8],
}

impl<'a> Cursor<'a> {
    pub fn new(bytes: &'a [u8]) -> Cursor<'a> {
        Cursor { rest: bytes }
    }

    // The next bytes, as many as asked for or as there are.
    pub fn part(&mut self, size: usize) -> &'a [u8] {
        let (front, rest) = self.rest.split_at(size.min(self.rest.len()));
        self.rest = rest;
        front
    }

    pub fn byte(&mut self) -> Option<u8> {
        self.part(1).first().copied()
    }

    // The next four bytes, least byte first.
    pub fn word(&mut self) -> Option<u32> {
        let bytes = self.part(4).try_into().ok()?;
        Some(u32::from_le_bytes(bytes))
    }
}
