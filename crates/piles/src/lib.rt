// The piles that set texts name, and dockets over them.
#![tactic(auto)]

mod pile;
mod pile_fault;
mod pile_kind;
mod set_docket;

pub use pile::{Pile, make_pile};
pub use pile_fault::PileFault;
pub use pile_kind::PileKind;
pub use set_docket::SetDocket;
