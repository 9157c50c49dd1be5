// The four rules: what a paper that was read shows of a transducer, or its first fault; and the two widths that this moves.
#![tactic(auto)]

mod fault;
mod first;
mod judging;
mod ranks;
mod rows;
mod shown;
mod torus;
mod width;

pub use fault::DocketFault;
pub use judging::weigh;
pub use width::{Claim, Ends, Width};
