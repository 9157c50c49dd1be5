// The transducers at the bottom of a pile: a list of tiles, and a row of the catalogue of multipliers.
#![tactic(auto)]

mod catalogue;
mod fault;
mod list;
mod multiplier;
mod tile;

pub use catalogue::CatalogueTransducer;
pub use fault::{ListFault, RowFault};
pub use list::{ListTransducer, MOST_TILES};
pub use multiplier::{Multiplier, multiplier_in};
pub use tile::Tile;
