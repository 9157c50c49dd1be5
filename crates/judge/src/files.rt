// Files as bytes.
use std::fs::File;
use std::io;
use std::io::{ErrorKind, Read};
use std::rt::Files;

// The first bytes of a file, at most so many; none where there is no such file.
pub fn read_file<R: Files + AllocGlobal>(
    rt: &R,
    path: &str,
    most: u64,
) -> io::Result<Option<Vec<u8>>> {
    let file = match File::open(rt, path) {
        Err(error) if error.kind() == ErrorKind::NotFound => return Ok(None),
        opened => opened?,
    };
    let mut bytes = Vec::new(rt.alloc());
    file.take(most).read_to_end(&mut bytes)?;
    Ok(Some(bytes))
}
