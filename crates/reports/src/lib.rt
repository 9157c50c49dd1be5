// What judge says: a line for each refusal and for each paper, and the part that a refusal blames.
#![tactic(auto)]

mod excerpts;
mod lines;

pub use excerpts::{Refusal, excerpt};
pub use lines::{paper_line, pile_line, set_line};
