// A docket over a transducer: papers are filed, and two widths kept.
#![tactic(auto)]

mod docket;
mod tally;

pub use docket::Docket;
pub use tally::Tally;
