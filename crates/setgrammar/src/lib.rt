// What a set text says, and its faults: the grammar of its lines, and the law of reading them.
#![tactic(auto)]

mod fault;
mod line;
mod set;

pub use fault::{Position, TextFault};
pub use line::{LineKind, Stage};
pub use set::SetText;
