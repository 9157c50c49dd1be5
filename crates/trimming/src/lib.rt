// Trimming: a transducer without the edges that cannot be gone on from in both directions.
#![tactic(auto)]

mod graph;
mod link;
mod lists;
mod trim;

pub use trim::Trim;
