// Reads a set text: a set of tiles, or a row of the catalogue, for a pile of rows.
#![tactic(auto)]

mod cursor;
mod reader;

pub use reader::read_set;
