// Transducers: graphs whose edges carry letters. The interface, and the layers that need nothing else: stack and turn.
#![tactic(auto)]

mod counts;
mod fault;
mod stack;
mod transducer;
mod turn;

pub use counts::Counts;
pub use fault::StackFault;
pub use stack::Stack;
pub use transducer::Transducer;
pub use turn::Turn;
